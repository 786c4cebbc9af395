// A router's list for a function, judged against version 1's. That list stands in an array of the judge's own, and the arrays in which it
// was prepared serve the judge once it is written: so the stack stays below 128 KiB.
ghost use Rattle.std.specs.Prelude.{◌≡◌};
ghost use Rattle.base.specs.Refusals.{outcome};
ghost use Rattle.bytecode.specs.declared.Version.TheVariants.{V1};
ghost use Rattle.compiler.specs.Whole.{Prepared};
ghost use Rattle.quetlapin.specs.Judging.{Ready, judged_at, counts_alike, Comparable};

use super::lookup::Found;
use base::{Fault, Refusal};
use bytecode::Version;
use compiler::Layout;
use runner::Counts;
use sums::Sizes;
use validator::LIST_LIMIT;

// The list of version 1 is written, then the proposed one is held to it. Not inlined, so that its array does not
// stand below the preparation.
#[inline(never)]
fn judge_written(
    table: &[u8],
    found: &Found,
    layout: &mut Layout,
    code: &[u8],
    numbers: &[u16],
    words: usize,
) -> Result<usize, Refusal>
    requires ready { Ready table.now found.now × Prepared V1 table.now found.now.position layout.old }
    requires comparable { Comparable table.now found.now.position code.now numbers.now words }
    ensures { outcome result ≡ judged_at table.now found.now.position code.now numbers.now }
{
    let mut list = [0u8; LIST_LIMIT];
    let sizes = found.sizes;
    compiler::compile_prepared(
        table,
        &found.starts,
        found.position,
        sizes,
        layout,
        &mut list,
    );
    validator::judge(
        &list[..sizes.code],
        code,
        numbers,
        sizes.arguments,
        sizes.outputs,
        sizes.instructions,
        words,
        &mut layout.order[..],
        &mut layout.locations[..],
    )
}

// A proposed list with the counts of version 1's. Not inlined, so that the arrays here do not stand below the checks.
#[inline(never)]
fn judge_counted(
    table: &[u8],
    found: &Found,
    code: &[u8],
    numbers: &[u16],
    words: usize,
) -> Result<usize, Refusal>
    requires { Ready table.now found.now × Comparable table.now found.now.position code.now numbers.now words }
    ensures { outcome result ≡ judged_at table.now found.now.position code.now numbers.now }
{
    let mut layout = Layout::new();
    compiler::prepare(
        Version::V1,
        table,
        &found.starts,
        &found.sums,
        found.position,
        &mut layout,
    );
    judge_written(table, found, &mut layout, code, numbers, words)
}

// Argument words, output words, instructions and numbers are as many as version 1 has.
fn same_counts(counts: Counts, sizes: Sizes, numbers: usize) -> bool
    ensures { result ≡ counts_alike counts sizes numbers }
{
    counts.arguments == sizes.arguments
        && counts.outputs == sizes.outputs
        && counts.instructions == sizes.instructions
        && numbers == sizes.instructions
}

// Of a function that was found: 18, also for a version 1 list; 33; 29.
pub fn judge_proposed(
    table: &[u8],
    found: &Found,
    code: &[u8],
    numbers: &[u16],
) -> Result<usize, Refusal>
    requires { Ready table.now found.now }
    ensures { outcome result ≡ judged_at table.now found.now.position code.now numbers.now }
{
    let Some(counts) = runner::check_code(code) else {
        return Err(Fault::Malformed.at(0));
    };
    if base::u16_at(code, 3) != 2 {
        return Err(Fault::Malformed.at(0));
    }
    if !same_counts(counts, found.sizes, numbers.len()) {
        return Err(Fault::Counts.at(0));
    }
    judge_counted(table, found, code, numbers, counts.words)
}
