//! Lines of a kind, found among lines whose keys rise.
ghost use Rattle.std.specs.Prelude.{◌≡◌, not};
ghost use Rattle.std.specs.List.{filter};
ghost use Rattle.ode_keep.specs.Entries.{HasRisingKeys};
ghost use Rattle.ode_dump.specs.Order.{under};
ghost use Rattle.ode_dump.specs.Searching.{is_before, is_up_to};

use ode_value::{Key, List};

fn is_before(key: Key, kind: u8, a: u64) -> bool
    ensures { result ≡ is_before kind a key }
{
    key.kind < kind || key.kind == kind && key.a < a
}

fn is_up_to(key: Key, kind: u8, a: u64) -> bool
    ensures { result ≡ is_up_to kind a key }
{
    key.kind < kind || key.kind == kind && key.a <= a
}

// The lines from those under a kind and a first number on.
fn from_on(lines: &[(Key, List<u8>)], kind: u8, a: u64) -> &[(Key, List<u8>)]
    ensures { HasRisingKeys lines.now → result.now ≡ filter (λ l. not (is_before kind a l.0)) lines.now }
{
    let start = lines.partition_point(
        |line: &(Key, List<u8>)| -> bool
            ensures { result ≡ is_before kind a line.now.0 }
        { is_before(line.0, kind, a) },
    );
    &lines[start..]
}

// The lines up to those under a kind and a first number.
fn up_to(lines: &[(Key, List<u8>)], kind: u8, a: u64) -> &[(Key, List<u8>)]
    ensures { HasRisingKeys lines.now → result.now ≡ filter (λ l. is_up_to kind a l.0) lines.now }
{
    let end = lines.partition_point(
        |line: &(Key, List<u8>)| -> bool
            ensures { result ≡ is_up_to kind a line.now.0 }
        { is_up_to(line.0, kind, a) },
    );
    &lines[..end]
}

/// The lines under a kind and a first number.
pub(crate) fn under(lines: &[(Key, List<u8>)], kind: u8, a: u64) -> &[(Key, List<u8>)]
    ensures { HasRisingKeys lines.now → result.now ≡ under kind a lines.now }
{
    from_on(up_to(lines, kind, a), kind, a)
}
