//! The script that a number gives.
ghost use Rattle.std.specs.Prelude.{◌≡◌, ◌++◌, ◌<◌, ◌^◌, IfOk, OnOk};
ghost use Rattle.ode_gen.specs.Generating.{call_line, call_text, class_line, drawn, gen_line, gen_script, lines_from, object_line};
ghost use Rattle.ode_value.specs.Texts.{line};

use ode_value::List;
use std::alloc::{AllocError, Global};

/// The largest number that a script is made from.
pub const GEN_LIMIT: u32 = 4000;

// The number drawn behind `last`.
fn drawn(last: u64) -> u64
    requires { last < 2 ^ 32 }
    ensures next { result ≡ drawn last }
    ensures bound { result < 2 ^ 31 }
{
    (1_103_515_245 * last + 12_345) % 2_147_483_648
}

#[tactic(auto, unfolding(crate::specs::Generating::class_line))]
fn put_class(text: &mut Vec<u8>) -> Result<(), AllocError>
    ensures { OnOk result (text.new.items ≡ text.old.items ++ class_line) }
{
    text.extend_from_slice(
        b"class Gen { int n; void put(int d) { n = n + d; } void take(int d) { n = n - d; } event after put, after take; trigger perpetual low(int k): after take && n < k ==> { say \"low\"; } trigger perpetual whole three(): every 3 (after put) ==> { show n; } };\n",
    )
}

#[tactic(auto, unfolding(crate::specs::Generating::object_line))]
fn put_object(text: &mut Vec<u8>) -> Result<(), AllocError>
    ensures { OnOk result (text.new.items ≡ text.old.items ++ object_line) }
{
    text.extend_from_slice(
        b"begin; pnew Gen(); activate #1.low(50); activate #1.three(); commit;\n",
    )
}

// Two amounts that are added and given up.
fn put_given_up(alloc: Global, text: &mut Vec<u8>, amount: u64) -> Result<(), AllocError>
    ensures { OnOk result (text.new.items ≡ text.old.items ++ line (call_text 2 amount)) }
{
    let line = format!(in alloc; "begin; #1.put({amount}); #1.put({amount}); abort;\n")?;
    text.extend_from_slice(line.as_bytes())
}

// The line that the upper bits of a drawn number give.
fn put_call(alloc: Global, text: &mut Vec<u8>, y: u64) -> Result<(), AllocError>
    ensures { OnOk result (text.new.items ≡ text.old.items ++ call_line y) }
{
    let amount = y % 100;
    match y % 4 {
        0 => {
            let line = format!(in alloc; "#1.put({amount});\n")?;
            text.extend_from_slice(line.as_bytes())
        }
        1 => {
            let line = format!(in alloc; "#1.take({amount});\n")?;
            text.extend_from_slice(line.as_bytes())
        }
        2 => put_given_up(alloc, text, amount),
        _ => text.extend_from_slice(b"newversion #1;\n"),
    }
}

// So many lines, by the numbers drawn behind the first.
fn put_calls(alloc: Global, text: &mut Vec<u8>, count: u32, first: u32) -> Result<(), AllocError>
    ensures { OnOk result (text.new.items ≡ text.old.items ++ lines_from count first) }
{
    let mut last = u64::from(first);
    for done in 0..count {
        last = drawn(last);
        put_call(alloc, text, last / 65_536)?;
    }
    Ok(())
}

/// The script of a number, in one pass.
pub fn gen_script(alloc: Global, number: u32) -> Result<List<u8>, AllocError>
    ensures script { IfOk result (λ text. text ≡ gen_script number) }
{
    let mut text = Vec::new(alloc);
    put_class(&mut text)?;
    put_object(&mut text)?;
    put_calls(alloc, &mut text, number, number)?;
    Ok(List::from_vec(text))
}

/// `gen N statements S settled T refused R bytes B`
pub fn gen_line(
    alloc: Global,
    number: u32,
    pieces: u64,
    settled: u64,
    refused: u64,
    bytes: u64,
) -> Result<List<u8>, AllocError>
    ensures line { IfOk result (λ text. text ≡ gen_line number pieces settled refused bytes) }
{
    let line = format!(in alloc;
        "gen {number} statements {pieces} settled {settled} refused {refused} bytes {bytes}\n"
    )?;
    Ok(List::from_vec(line.into_bytes()))
}
