//! The fields that were added to classes.
ghost use Rattle.std.specs.Prelude.{◌≡◌, ◌≤◌, ℕ, [], IfOk, IsErrOf, IsTrue, OnOk, Some, length, slice_get, take};
ghost use Rattle.std.specs.BTreeMap.{get};
ghost use Rattle.std.specs.Ordering.{nat_cmp};
ghost use Rattle.ode_host.specs.Causes.{RoseIf};
ghost use Rattle.ode_host.specs.Host.{Looks};
ghost use Rattle.ode_keep.specs.Entries.{Entries};
ghost use Rattle.ode_passes.specs.Records.{Found};
ghost use Rattle.std.specs.Option.{option_copied};
ghost use Rattle.ode_opening.specs.Births.{AreBirthsOf, Lists, added_in, added_of, birth_of, class_name, first_missing, fits_literal, front_of, has_birth, is_class, is_kept, is_null, is_number, is_sound, list_one, listed, noted, sort_in};
ghost use Rattle.ode_passes.specs.Answers.{Answers, UnlessFault, is_usable};

use ode_codec::{BOOL_SORT, INT_SORT, REFERENCE_SORT, Record, TEXT_SORT};
use ode_host::Host;
use ode_keep::Keep;
use ode_passes::{Cause, Found, OpenError, class_count, walk};
use ode_value::{Added, Key, List, Name, Ref, Sort, Value};
use std::alloc::{AllocError, Global};
use std::collections::BTreeMap;

// Each birth with the place of its first record.
type Births = BTreeMap<u32, usize>;

// The birth of an added field.
fn birth_of(row: &Record) -> Option<u32>
    ensures { result ≡ birth_of row.now }
{
    match row {
        Record::Added { birth, .. } => Some(*birth),
        _ => None,
    }
}

// The birth that a record has, at its place, where none before it has it.
fn note(births: &mut Births, place: usize, row: &Record) -> Result<(), AllocError>
    ensures { OnOk result ((birth : ℕ) → get nat_cmp births.new birth ≡ noted (get nat_cmp births.old birth) place (has_birth birth row.now)) }
{
    let Some(birth) = birth_of(row) else {
        return Ok(());
    };
    if births.contains_key(&birth) {
        return Ok(());
    }
    births.insert(birth, place)?;
    Ok(())
}

// The births of records, each with the first place where it stands.
fn births_of(alloc: Global, records: &[(Key, Record)]) -> Result<Births, AllocError>
    ensures { IfOk result (λ births. AreBirthsOf records.now births) }
{
    let mut births = BTreeMap::new(alloc);
    for (place, found) in records.iter().enumerate() {
        note(&mut births, place, &found.1)?;
    }
    Ok(births)
}

// The first birth of so many that no record has.
fn first_missing(births: &Births, count: u32) -> Option<u32>
    ensures { (records : Found) → AreBirthsOf records births.now → result ≡ first_missing records count }
{
    let mut birth: u32 = 0;
    while birth < count {
        birth += 1;
        if !births.contains_key(&birth) {
            return Some(birth);
        }
    }
    None
}

// The name of the class of a number, by the heads of all classes.
fn class_name(heads: &[(Key, Record)], number: u32) -> Option<&Name>
    ensures { option_copied result ≡ class_name heads.now number }
{
    let place = (number as usize).checked_sub(1)?;
    match heads.get(place) {
        Some((_, Record::ClassHead { name, .. })) => Some(name),
        _ => None,
    }
}

// Whether a number is that of a class.
fn is_class(heads: &[(Key, Record)], number: u32) -> bool
    ensures { result ≡ is_class heads.now number }
{
    1 <= number && number as usize <= class_count(heads)
}

// Whether a literal is of a sort as it is stored; of a reference's it is null.
fn fits_literal(sort: u8, literal: &Value) -> bool
    ensures { result ≡ fits_literal sort literal.now }
{
    match literal {
        Value::Int(_) => sort == INT_SORT,
        Value::Bool(_) => sort == BOOL_SORT,
        Value::Text(_) => sort == TEXT_SORT,
        Value::Reference(of) => sort == REFERENCE_SORT && is_null(*of),
    }
}

fn is_null(of: Ref) -> bool
    ensures { result ≡ is_null of }
{
    of.object == 0
}

// Whether a birth stands first at this place.
fn is_first(births: &Births, birth: u32, place: usize) -> bool
    ensures { result ≡ is_number place (get nat_cmp births.now birth) }
{
    match births.get(&birth) {
        Some(first) => *first == place,
        None => false,
    }
}

// Whether an added field has a birth of so many, a known class, also where it refers to one, and a literal of its sort.
fn is_sound(
    heads: &[(Key, Record)],
    count: u32,
    class: u32,
    birth: u32,
    sort: u8,
    of: u32,
    literal: &Value,
) -> bool
    ensures { result ≡ is_sound heads.now count class birth sort of literal.now }
{
    let counted = 1 <= birth && birth <= count;
    let known = sort != REFERENCE_SORT || is_class(heads, of);
    counted && is_class(heads, class) && known && fits_literal(sort, literal)
}

// Whether an added field keeps its rule: its birth is its own, and the rest is sound.
fn is_kept(
    heads: &[(Key, Record)],
    births: &Births,
    count: u32,
    place: usize,
    found: &(Key, Record),
) -> bool
    ensures { (records : Found) → AreBirthsOf records births.now → slice_get records place ≡ Some found.now
        → result ≡ is_kept heads.now (take place records) count found.now.1 }
{
    match &found.1 {
        Record::Added {
            class,
            birth,
            sort,
            of,
            literal,
            ..
        } => {
            let first = is_first(births, *birth, place);
            let sound = is_sound(heads, count, *class, *birth, *sort, *of, literal);
            first && sound
        }
        _ => false,
    }
}

// A sort of a record.
fn sort_in(
    alloc: Global,
    heads: &[(Key, Record)],
    sort: u8,
    of: u32,
) -> Result<Option<Sort>, AllocError>
    ensures { IfOk result (λ found. found ≡ sort_in heads.now sort of) }
{
    match sort {
        INT_SORT => Ok(Some(Sort::Int)),
        BOOL_SORT => Ok(Some(Sort::Bool)),
        TEXT_SORT => Ok(Some(Sort::Text)),
        _ => match class_name(heads, of) {
            Some(name) => Ok(Some(Sort::Reference(name.copy(alloc)?))),
            None => Ok(None),
        },
    }
}

// The added field of a record.
fn added_of(
    alloc: Global,
    heads: &[(Key, Record)],
    row: &Record,
) -> Result<Option<Added>, AllocError>
    ensures { IfOk result (λ found. found ≡ added_of heads.now row.now) }
{
    let Record::Added {
        class,
        birth,
        name,
        sort,
        of,
        literal,
    } = row
    else {
        return Ok(None);
    };
    let Some(sort) = sort_in(alloc, heads, *sort, *of)? else {
        return Ok(None);
    };
    Ok(Some(Added {
        class: *class,
        birth: *birth,
        name: name.copy(alloc)?,
        sort,
        value: literal.copy(alloc)?,
    }))
}

// The added field of a record that keeps its rule.
fn one_added(
    alloc: Global,
    heads: &[(Key, Record)],
    births: &Births,
    count: u32,
    place: usize,
    found: &(Key, Record),
) -> Result<Added, OpenError>
    ensures meant { (records : Found) → AreBirthsOf records births.now → slice_get records place ≡ Some found.now
        → Answers (list_one heads.now count (take place records) found.now) result }
    ensures calm { IsErrOf result OpenError.DiskFault → ⊥ }
{
    if !is_kept(heads, births, count, place, found) {
        return Err(OpenError::BadFile(Cause::Record(found.0)));
    }
    let added = added_of(alloc, heads, &found.1)?;
    match added {
        Some(added) => Ok(added),
        None => Err(OpenError::BadFile(Cause::Record(found.0))),
    }
}

// The added fields of records, by the heads of all classes, or the first of them that breaks its rule.
fn list_added(
    alloc: Global,
    heads: &[(Key, Record)],
    records: &[(Key, Record)],
    births: &Births,
    count: u32,
) -> Result<List<Added>, OpenError>
    requires { AreBirthsOf records.now births.now }
    ensures meant { Lists (listed heads.now count [] records.now) result }
    ensures calm { IsErrOf result OpenError.DiskFault → ⊥ }
{
    let mut list = List::new(alloc);
    for (place, found) in records.iter().enumerate() {
        let added = one_added(alloc, heads, births, count, place, found)?;
        list.push(added)?;
    }
    Ok(list)
}

/// The fields that were added to classes, class by class and by their births, where there are to be so many; or the first rule that their
/// records break. The heads are those of all classes. Nothing is written.
#[tactic(auto, using(crate::proofs::Listing::walk_stops))]
pub fn read_added<H: Host, K: Keep<H>>(
    alloc: Global,
    keeper: &mut K,
    host: &mut H,
    heads: &[(Key, Record)],
    count: u32,
) -> Result<List<Added>, OpenError>
    requires live { IsTrue (K.live keeper.old) }
    ensures meant { (entries : Entries) → K.holds keeper.old (H.view host.old) entries → Lists (added_in heads.now count entries) result }
    ensures holds { UnlessFault result ((entries : Entries) → K.holds keeper.old (H.view host.old) entries
        → K.holds keeper.new (H.view host.new) entries) }
    ensures looks { Looks (H.view host.old) (H.view host.new) }
    ensures usable { K.live keeper.new ≡ is_usable result }
    ensures cause { RoseIf (IsErrOf result OpenError.DiskFault) (H.view host.old).disk_faults (H.view host.new).disk_faults }
{
    let mut records: Found = List::new(alloc);
    walk(alloc, keeper, host, Key::ADDED, Key::ADDED, &mut records)?;
    let births = births_of(alloc, records.as_slice())?;
    if let Some(birth) = first_missing(&births, count) {
        return Err(OpenError::BadFile(Cause::Missing(Key {
            kind: Key::ADDED,
            a: 0,
            b: u64::from(birth),
        })));
    }
    list_added(alloc, heads, records.as_slice(), &births, count)
}

/// How many of these fields are the first ones and were added to a class.
pub(crate) fn count_of(added: &[Added], class: u32) -> usize
    ensures count { result ≡ length (front_of class added.now) }
    ensures inside { result ≤ length added.now }
{
    for (count, field) in added.iter().enumerate() {
        if field.class != class {
            return count;
        }
    }
    added.len()
}
