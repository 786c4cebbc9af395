// The runner of board lists: the check of a code, and the run of a code that was checked.
#![tactic(auto)]

ghost use Rattle.std.specs.Prelude.{◌≡◌, true, false, cond, [], map, ◌&&◌, leb, ◌+◌, ◌*◌, ◌≤◌, eqb, length};
ghost use Rattle.std.proofs.lemmas.List.Edits.{sets};
ghost use Rattle.base.specs.Limits.{header_length};
ghost use Rattle.base.specs.Bytes.{u16};
ghost use Rattle.base.specs.Lists.{word_at, every};
ghost use Rattle.base.specs.Refusals.{outcome};
ghost use Rattle.value.specs.Values.{argument_word};
ghost use Rattle.bytecode.specs.Code as Code;
ghost use Rattle.bytecode.specs.declared.Version.TheVariants.{V1, V2};
ghost use Rattle.bytecode.specs.Code.{addresses, argument_words, read_instructions, counts_fit, decode};
ghost use Rattle.bytecode.specs.Answers.{ran};
ghost use Rattle.executor.specs.Instructions.{version_by};
ghost use Rattle.runner.specs.Checks.{all_less, marked, behind_good, Checkable, Ended, Listable, list_of, checked_of, Exactly, header_counts};
ghost use Rattle.runner.specs.Runs.{Answered, Refused18, Runnable, OutputsReady, memory_of, outputs_of};

use base::{Fault, HEADER_LENGTH, Refusal, WORD_LIMIT};

mod row;
mod written;

// The counts that a code says.
#[derive(Clone, Copy)]
pub struct Counts {
    pub arguments: usize,
    pub outputs: usize,
    pub instructions: usize,
    pub words: usize,
}

// Where the next instruction stands, and the word behind all results so far: in version 1 its result goes there.
#[derive(Clone, Copy)]
pub struct Cursor {
    pub at: usize,
    pub result: usize,
}

// ---- the check of a code

// Apart from `written::outputs_written`: this asks of each address how large it is, that what stands at it.
fn outputs_less(s: &[u8], from: usize, count: usize, words: usize) -> bool
    requires { from + 2 * count ≤ length s.now }
    ensures { result ≡ all_less words (addresses count s.now from) }
{
    (0..count).all(|i| base::u16_at(s, from + 2 * i) < words)
}

// The instructions, from behind the header and the word `first` on: what stands behind them. Those of version 2 carry the
// addresses of their results, and mark the words there. The table of rows stands outside the loop: it is built where it is named.
fn check_instructions<const ADDRESSED: bool>(
    s: &[u8],
    count: usize,
    first: usize,
    marks: &mut [bool],
) -> Option<Cursor>
    requires { Checkable ADDRESSED s.now count first marks.old }
    ensures { Ended ADDRESSED (read_instructions (version_by ADDRESSED) count s.now header_length (argument_words first)) marks.new result }
{
    let rows = ports::PORTS;
    let mut cursor = Cursor {
        at: HEADER_LENGTH,
        result: first,
    };
    for _ in 0..count {
        if s.len() < row::operands_from::<ADDRESSED>(cursor.at) {
            return None;
        }
        let kind = usize::from(s[cursor.at]);
        if rows.len() <= kind {
            return None;
        }
        cursor = row::check_instruction::<ADDRESSED>(s, cursor, rows[kind], marks)?;
    }
    if WORD_LIMIT < cursor.result {
        return None;
    }
    Some(cursor)
}

// Outputs of words that are written.
fn outputs_readable<const ADDRESSED: bool>(
    s: &[u8],
    from: usize,
    count: usize,
    words: usize,
    marks: &[bool],
) -> bool
    requires { from + 2 * count ≤ length s.now }
    ensures { result ≡ cond ADDRESSED (every (marked marks.now) (addresses count s.now from)) (all_less words (addresses count s.now from)) }
{
    if ADDRESSED {
        written::outputs_written(s, from, count, marks)
    } else {
        outputs_less(s, from, count, words)
    }
}

// What stands behind the instructions: the list has as many words as it says, and then its outputs follow, and nothing else.
fn is_ended<const ADDRESSED: bool>(s: &[u8], counts: Counts, next: Cursor, marks: &[bool]) -> bool
    requires { (next.at ≤ length s.now) × (counts.outputs ≤ 255) }
    ensures { result ≡ behind_good ADDRESSED s.now counts next marks.now }
{
    next.result == counts.words
        && s.len() - next.at == 2 * counts.outputs
        && outputs_readable::<ADDRESSED>(s, next.at, counts.outputs, counts.words, marks)
}

// The list behind the header.
fn check_list<const ADDRESSED: bool>(s: &[u8], counts: Counts, marks: &mut [bool]) -> Option<Counts>
    requires { Listable ADDRESSED s.now counts marks.old }
    ensures { result ≡ checked_of (list_of (version_by ADDRESSED) s.now counts) }
{
    let next = check_instructions::<ADDRESSED>(s, counts.instructions, counts.arguments, marks)?;
    is_ended::<ADDRESSED>(s, counts, next, marks).then_some(counts)
}

// Version 1 keeps no marks.
fn check_sequential(s: &[u8], counts: Counts) -> Option<Counts>
    requires { Listable false s.now counts [] }
    ensures { result ≡ checked_of (list_of V1 s.now counts) }
{
    let mut marks = [false; 0];
    check_list::<false>(s, counts, &mut marks)
}

// Version 2, with a mark for each word: the arguments are written first.
fn check_addressed(s: &[u8], counts: Counts) -> Option<Counts>
    requires { Listable false s.now counts [] }
    ensures { result ≡ checked_of (list_of V2 s.now counts) }
{
    let mut marks = [false; WORD_LIMIT];
    written::mark_words(&mut marks, 0, counts.arguments);
    check_list::<true>(s, counts, &mut marks)
}

// A header, with its mark and its zero byte.
fn is_headed(s: &[u8]) -> bool
    ensures { result ≡ leb header_length (length s.now) && Code.code_marked s.now }
{
    HEADER_LENGTH <= s.len() && s[0] == 0x49 && s[1] == 0x46 && s[2] == 0x52 && s[7] == 0
}

fn header_counts(s: &[u8]) -> Counts
    requires { header_length ≤ length s.now }
    ensures { (result ≡ header_counts s.now) × (result.arguments ≤ 255) × (result.outputs ≤ 255) × (result.instructions ≤ 65535) }
{
    Counts {
        arguments: usize::from(s[5]),
        outputs: usize::from(s[6]),
        instructions: base::u16_at(s, 8),
        words: base::u16_at(s, 10),
    }
}

// Whether a code may have these counts. Its last two tests are `base::within_limits`, written out: by a call the run of
// scalars takes a tenth longer.
fn counts_fit(c: Counts) -> bool
    ensures { result ≡ counts_fit c.arguments c.outputs c.instructions c.words }
{
    c.arguments <= base::PORT_WORD_LIMIT
        && 1 <= c.outputs
        && c.outputs <= base::PORT_WORD_LIMIT
        && c.instructions <= base::OPERATION_LIMIT
        && c.words <= base::WORD_LIMIT
}

// Whether a code is well formed, and its counts.
pub fn check_code(s: &[u8]) -> Option<Counts>
    ensures value { result ≡ checked_of (decode s.now) }
    ensures exactly { Exactly s.now result }
{
    if !is_headed(s) {
        return None;
    }
    let counts = header_counts(s);
    if !counts_fit(counts) {
        return None;
    }
    // The version is no part of `Counts`, which are in clauses of callers; it is one load where it is asked.
    match base::u16_at(s, 3) {
        1 => check_sequential(s, counts),
        2 => check_addressed(s, counts),
        _ => None,
    }
}

// Whether every argument is finite.
pub fn arguments_allowed(xs: &[u64]) -> bool
    ensures { result ≡ every argument_word xs.now }
{
    xs.iter().all(|w| value::argument_word(*w))
}

// Word by word: `copy_from_slice` is a call of `memmove`, which an archive for C would want from outside.
fn copy(from: &[u64], to: &mut [u64])
    requires { length from.now ≤ length to.old }
    ensures { to.new ≡ sets to.old 0 from.now }
{
    for i in 0..from.len() {
        to[i] = from[i];
    }
}

// The words at `count` addresses, which stand at the byte `from`.
fn copy_outputs(s: &[u8], from: usize, count: usize, work: &[u64], out: &mut [u64])
    requires { OutputsReady s.now from count (length work.now) (length out.old) }
    ensures { out.new ≡ sets out.old 0 (map (word_at work.now) (addresses count s.now from)) }
{
    for i in 0..count {
        out[i] = work[base::u16_at(s, from + 2 * i)];
    }
}

// Whether its instructions carry their results' addresses: of the versions that pass the check, only version 2's do.
fn is_addressed(code: &[u8]) -> bool
    requires { header_length ≤ length code.now }
    ensures { result ≡ eqb (u16 code.now 3) 2 }
{
    base::u16_at(code, 3) == 2
}

// Runs a code that was checked, with its counts, on as many finite arguments, where both buffers are long enough.
pub fn run_checked(
    code: &[u8],
    counts: Counts,
    arguments: &[u64],
    work: &mut [u64],
    out: &mut [u64],
)
    requires { Runnable code.now counts arguments.now (length work.old) (length out.old) }
    ensures { (work.new ≡ memory_of (decode code.now) arguments.now work.old) × (out.new ≡ outputs_of (decode code.now) arguments.now work.old out.old) }
{
    let outputs = counts.outputs;
    let at = code.len() - 2 * outputs;
    let addressed = is_addressed(code);
    copy(arguments, work);
    executor::execute_all(code, addressed, counts.instructions, counts.arguments, work);
    copy_outputs(code, at, outputs, work, out);
}

// Runs a code on arguments: 18, 19, 20 and 21 are judged before any word is written.
pub fn run(
    code: &[u8],
    arguments: &[u64],
    work: &mut [u64],
    out: &mut [u64],
) -> Result<usize, Refusal>
    ensures answered { Answered (ran code.now arguments.now work.old out.old) work.old out.old work.new out.new (outcome result) }
    ensures refused18 { Refused18 code.now (outcome result) }
{
    let Some(counts) = check_code(code) else {
        return Err(Fault::Malformed.at(0));
    };
    if arguments.len() != counts.arguments {
        return Err(Fault::ArgumentCount.at(0));
    }
    if !arguments_allowed(arguments) {
        return Err(Fault::Argument.at(0));
    }
    if work.len() < counts.words {
        return Err(Fault::Room.at(0));
    }
    if out.len() < counts.outputs {
        return Err(Fault::Room.at(0));
    }
    run_checked(code, counts, arguments, work, out);
    Ok(counts.outputs)
}
