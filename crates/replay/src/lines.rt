// The lines of a run that is retold.
ghost use Rattle.std.specs.Prelude.{◌≡◌, ◌*◌, ◌++◌, string_bytes, codes, OnOk};
ghost use Rattle.std.specs.Result.{result_err, result_unwrap_or};
ghost use Rattle.std.specs.List.{flat_map};
ghost use Rattle.replay.specs.Traces.{call_line, value_text, values_line, closing_line};

use case_file::filed::Filed;
use checks::Fault;
use listing::digits::{Hexadecimal, ShortHexadecimal};
use runs::run::closing::Closing;
use std::alloc::AllocError;

fn push_call(text: &mut String, number: u32, answer: Result<u32, Fault>) -> Result<(), AllocError>
    ensures { OnOk result (string_bytes text.new ≡ string_bytes text.old ++ call_line number (result_unwrap_or answer 0) (result_err answer)) }
{
    match answer {
        Ok(points) => writeln!(text, "call {number} points {points}"),
        Err(fault) => writeln!(text, "call {number} {fault}"),
    }
}

fn push_value(text: &mut String, bits: Hexadecimal) -> Result<(), AllocError>
    ensures { OnOk result (string_bytes text.new ≡ string_bytes text.old ++ value_text bits.digits (λ n. n) bits.number) }
{
    write!(text, " {bits}")
}

fn push_bits<K: Filed + Copy>(text: &mut String, values: &[K]) -> Result<(), AllocError>
    ensures { OnOk result (string_bytes text.new ≡ string_bytes text.old ++ flat_map (value_text (2 * K.Filed.width) K.Filed.printed) values.now) }
{
    let digits = 2 * K::width() as u8;
    for value in values {
        let number = value.bits();
        push_value(text, Hexadecimal { number, digits })?;
    }
    Ok(())
}

fn push_values<K: Filed + Copy>(text: &mut String, values: &[K]) -> Result<(), AllocError>
    ensures { OnOk result (string_bytes text.new ≡ string_bytes text.old ++ values_line (2 * K.Filed.width) K.Filed.printed values.now) }
{
    write!(text, "values")?;
    push_bits(text, values)?;
    writeln!(text)
}

// A call's answer, and the values after it.
pub(crate) fn note_call<K: Filed + Copy>(
    text: &mut String,
    number: u32,
    answer: Result<u32, Fault>,
    values: &[K],
) -> Result<(), AllocError>
    ensures { OnOk result (string_bytes text.new ≡ (string_bytes text.old ++ call_line number (result_unwrap_or answer 0) (result_err answer)) ++ values_line (2 * K.Filed.width) K.Filed.printed values.now) }
{
    push_call(text, number, answer)?;
    push_values(text, values)
}

pub(crate) fn note_closing(text: &mut String, closing: Closing) -> Result<(), AllocError>
    ensures { OnOk result (string_bytes text.new ≡ string_bytes text.old ++ closing_line closing) }
{
    let Closing { done, points, end } = closing;
    let done = ShortHexadecimal(done);
    writeln!(text, "closed done {done} points {points} {end}")
}
