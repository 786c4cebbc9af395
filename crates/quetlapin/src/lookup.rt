// The function of an id: its table checked, found and measured once.
ghost use Rattle.std.specs.Prelude.{◌≡◌};
ghost use Rattle.base.specs.Refusals.{outcome};
ghost use Rattle.quetlapin.specs.Measures.{Finds, operations_allowed, limits_allowed, code_allowed};

use base::{FUNCTION_LIMIT, Fault, OPERATION_LIMIT, Refusal, WORD_LIMIT};
use sums::{Sizes, Sums};

// A function of an accepted table by its position: its sizes, the places of the functions, and the sums of those up to it.
#[derive(Clone, Copy)]
pub struct Found {
    pub position: usize,
    pub sizes: Sizes,
    pub starts: [usize; FUNCTION_LIMIT],
    pub sums: [Sums; FUNCTION_LIMIT],
}

// What a version asks of its sizes. It stands once on the stack: so each asks of what was lent, and gives no copy on.
impl Found {
    // Before any is found.
    pub const NONE: Found = Found {
        position: 0,
        sizes: Sizes {
            place: 0,
            operations: 0,
            words: 0,
            instructions: 0,
            bytes: 0,
            code: 0,
            arguments: 0,
            outputs: 0,
        },
        starts: [0; FUNCTION_LIMIT],
        sums: [Sums::NONE; FUNCTION_LIMIT],
    };

    // 15.
    pub fn check_operations(&self) -> Result<(), Refusal>
        ensures { outcome result ≡ operations_allowed self.now.sizes }
    {
        if OPERATION_LIMIT < self.sizes.operations {
            return Err(Fault::Operations.at(0));
        }
        Ok(())
    }

    // 15 and 16, by the words of version 1.
    pub fn check_limits(&self) -> Result<(), Refusal>
        ensures { outcome result ≡ limits_allowed self.now.sizes }
    {
        self.check_operations()?;
        if WORD_LIMIT < self.sizes.words {
            return Err(Fault::Words.at(0));
        }
        Ok(())
    }

    // 17: whether its code in version 1 fits so many bytes.
    pub fn check_room(&self, room: usize) -> Result<(), Refusal>
        ensures { outcome result ≡ code_allowed self.now.sizes room }
    {
        if room < self.sizes.code {
            return Err(Fault::CodeRoom.at(0));
        }
        Ok(())
    }
}

// The table's refusals, then 14. It fills what it is lent: a `Found` in a result would stand twice on its caller's stack.
pub fn find(table: &[u8], id: u16, found: &mut Found) -> Result<(), Refusal>
    ensures { Finds table.now id found.new result }
{
    let count = checker::check(table)?;
    sums::find_starts(table, count, &mut found.starts);
    let Some(position) = sums::position_of(table, &found.starts, count, usize::from(id)) else {
        return Err(Fault::NoFunction.at(0));
    };
    found.position = position;
    found.sizes = sums::measure(table, &found.starts, position, &mut found.sums);
    Ok(())
}
