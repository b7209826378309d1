//! A history and two passes of it.

ghost use Rattle.std.specs.Prelude.{◌≡◌};

use case_lines::put_number;
use kg_history::{Blank, HistoryName};
use kg_text::NoMemory;
use std::alloc::Global;
use std::marker::Brand;

/// Adds what one pass looks at after an entry, and what another then learns of it by a note.
pub fn put_history_told(alloc: Global, out: &mut String) -> Result<(), NoMemory> {
    let blank = kg_history::make::<u64>(alloc, 2)?;
    let (looked, learned) = told::<Brand>(alloc, blank)?;
    put_number(out, looked)?;
    out.push(' ')?;
    put_number(out, learned)
}

fn told<N: HistoryName>(alloc: Global, blank: Blank<u64>) -> Result<(u64, u64), NoMemory>
    requires name { blank.history ≡ N.history }
    requires passes { blank.passes ≡ 2 }
{
    let (mut writer, mut passes) = blank.open::<N>(alloc)?;
    let (Some(mut one), Some(mut two)) = (passes.pop(), passes.pop()) else {
        unreachable!()
    };
    writer.append(&7);
    let looked = one.look();
    Ok((looked, two.meet(one.note())))
}
