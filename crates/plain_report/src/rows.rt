// The lines of swept values.
ghost use Rattle.std.specs.Prelude.{◌≡◌, ◌*◌, ◌++◌, map, IfOk, string_bytes, OnOk};
ghost use Rattle.plain_report.specs.Lines.{rows_text, plain_text};

use case_file::filed::Filed;
use listing::digits::Hexadecimal;
use std::alloc::{AllocError, Global};

fn push_rows<K: Filed + Copy>(text: &mut String, values: &[K]) -> Result<(), AllocError>
    ensures { OnOk result (string_bytes text.new ≡ string_bytes text.old ++ rows_text (2 * K.Filed.width) (map K.Filed.printed values.now)) }
{
    let digits = 2 * K::width() as u8;
    for (row, value) in values.iter().enumerate() {
        let number = value.bits();
        let bits = Hexadecimal { number, digits };
        writeln!(text, "row {row} value {bits}")?;
    }
    Ok(())
}

// The listing of values after plain sweeps.
pub fn plain_listing<K: Filed + Copy>(
    heap: Global,
    sweeps: u32,
    values: &[K],
) -> Result<String, AllocError>
    ensures { IfOk result (λ text. string_bytes text ≡ plain_text sweeps (2 * K.Filed.width) (map K.Filed.printed values.now)) }
{
    let rows = values.len();
    let mut text = format!(in heap; "rows {rows} sweeps {sweeps}\n")?;
    push_rows(&mut text, values)?;
    Ok(text)
}
