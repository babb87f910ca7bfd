//! What holds of files of pages.
ghost use Rattle.std.specs.Prelude.{◌≡◌, ◌≤◌, [], List, ℕ, None, Option, Some, length};
ghost use Rattle.std.specs.BTreeMap.{is_at};
ghost use Rattle.std.specs.Map.{lookup};
ghost use Rattle.ode_gate.specs.declared.header.Header.{Header as FileHeader};
ghost use Rattle.ode_value.specs.declared.key.Key.{Key as RecordKey};
ghost use Rattle.ode_value.specs.Keys.{key_cmp};
ghost use Rattle.ode_keep.specs.Entries.{Entries, HasRisingKeys, value_under};
ghost use Rattle.ode_paging.specs.Hands.{AreCovered};
ghost use Rattle.ode_paging.specs.Images.{HasRisingPages, Image, IsPayload};
ghost use Rattle.ode_paging.specs.Imaging.{AreImages};
ghost use Rattle.ode_paging.specs.Indexing.{indexed};
ghost use Rattle.ode_paging.specs.Leading.{LeadsTo};
ghost use Rattle.ode_paging.specs.Meaning.{PagesMean};
ghost use Rattle.ode_paging.specs.Opening.{OpensAs};
ghost use Rattle.ode_paging.specs.Overlays.{laid};
ghost use Rattle.ode_paging.specs.Replacing.{ArePages, IsReplaced, LeadsOnlyTo, page_changed};
ghost use Rattle.ode_paging.specs.Standing.{HavePages, page_count};
ghost use Rattle.ode_paging.specs.declared.opening.Opened.{Opened as OpenedFile};

/// Two lists of images that spell one payload are the same.
pub fn one_payload()
    ensures { (images others : List Image) (payload : List ℕ) → IsPayload images payload
        → IsPayload others payload → images ≡ others }
{}

/// An image of a disk stands for the records of one map alone, in rising order of their keys.
pub fn one_map()
    ensures alone { (image : List ℕ) (entries others : Entries) → PagesMean image entries → PagesMean image others
        → entries ≡ others }
    ensures rising { (image : List ℕ) (entries : Entries) → PagesMean image entries → HasRisingKeys entries }
{}

/// Each key of an opened file leads to the page in which its value stands, and a key that leads nowhere has none.
pub fn each_key_leads()
    ensures there { (header : FileHeader) (file : List ℕ) (opened : OpenedFile) (entries : Entries) (key : RecordKey) (page : ℕ)
        → OpensAs header file opened entries → lookup (is_at (key_cmp key)) opened.index ≡ Some page
        → LeadsTo header opened.images file key page entries }
    ensures nowhere { (header : FileHeader) (file : List ℕ) (opened : OpenedFile) (entries : Entries) (key : RecordKey)
        → OpensAs header file opened entries → lookup (is_at (key_cmp key)) opened.index ≡ None
        → value_under entries key ≡ None }
{}

/// Where the value under a key changes in the page to which the key leads, or else in any page, the records of all pages
/// change in this alone, the key leads there, and still no key stands in two pages.
pub fn one_page_changes()
    ensures { (pages : List Entries) (key : RecordKey) (value : Option (List ℕ)) (page : ℕ) → ArePages pages
        → LeadsOnlyTo (indexed 0 [] pages) key page → page ≤ length pages
        → IsReplaced pages (page_changed pages page key value) key value page }
{}

/// Where the images of the pages in hand are laid over those that there were, the file has the pages with the changes in
/// hand.
pub fn images_lay_pages()
    ensures stand { (header : FileHeader) (file : List ℕ) (images over : List Image) (hand : List (ℕ × Entries)) (count : ℕ) (pages now : List Entries)
        → AreCovered hand count pages now → HavePages header images file 0 pages → AreImages hand over → HasRisingPages over
        → HavePages header (laid over images) file 0 now }
    ensures many { (header : FileHeader) (file : List ℕ) (images over : List Image) (hand : List (ℕ × Entries)) (count : ℕ) (pages now : List Entries)
        → AreCovered hand count pages now → HavePages header images file 0 pages → AreImages hand over → HasRisingPages over
        → length pages ≡ page_count header.body_len images → length now ≡ page_count header.body_len (laid over images) }
{}
