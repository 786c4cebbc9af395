// The lister's text.
#![tactic(auto)]

ghost use Rattle.std.specs.Prelude.{◌≡◌, ◌++◌, ◌+◌, ◌<◌, ◌≤◌, length, drop};
ghost use Rattle.std.proofs.lemmas.List.Edits.{sets};
ghost use Rattle.lowering.specs.Listing.{decimal, newline, refused_text, at_text, function_lines, listing};
ghost use Rattle.base.specs.Outcome.{ok};
ghost use Rattle.base.specs.Refusals.{number};
ghost use Rattle.graph.specs.Judge.{verdict};
ghost use Rattle.sums.specs.Position.{before, Accepted, Started};
ghost use Rattle.sums.specs.Capped.{SumsHeld};
ghost use Rattle.listing.specs.Lines.{text_limit, first_limit, line_limit, head_text, counts_text, line_at};
ghost use Rattle.listing.specs.Appends.{Appends, shown};

use base::{FUNCTION_LIMIT, OPERATION_LIMIT, Refusal, WORD_LIMIT, u16_at, within_limits};
use sums::{Sizes, Sums};

// Room for the text: a line for the table, and one for each of its functions.
pub const TEXT_LIMIT: usize = 2048;

// ---- bytes and numbers

// The digits of n, as the last bytes; the answer is the place of the first digit.
fn fill_digits(digits: &mut [u8; 20], n: usize) -> usize
    ensures { (drop result digits.new ≡ decimal n) × (length digits.new ≡ 20) × (result < 20) }
{
    let mut m = n;
    for i in (0..20).rev() {
        digits[i] = b'0' + (m % 10) as u8;
        if m < 10 {
            return i;
        }
        m /= 10;
    }
    // Not reached: a number of 64 bits has at most 20 digits.
    0
}

// The text so far: the first bytes of a buffer that is lent.
#[derive(Drop)]
struct Text<'a> {
    bytes: &'a mut [u8; TEXT_LIMIT],
    length: usize,
}

impl Text<'_> {
    fn put_bytes(&mut self, s: &[u8])
        requires { self.old.length + length s.now ≤ text_limit }
        ensures { Appends self.old s.now self.new }
    {
        let end = self.length + s.len();
        let bytes = &mut *self.bytes;
        bytes[self.length..end].copy_from_slice(s);
        self.length = end;
    }

    fn put_decimal(&mut self, n: usize)
        requires { self.old.length + length (decimal n) ≤ text_limit }
        ensures { Appends self.old (decimal n) self.new }
    {
        let mut digits = [0u8; 20];
        let first = fill_digits(&mut digits, n);
        self.put_bytes(&digits[first..]);
    }

    // A word and a number.
    fn put_field(&mut self, word: &[u8], n: usize)
        requires { self.old.length + length (word.now ++ decimal n) ≤ text_limit }
        ensures { Appends self.old (word.now ++ decimal n) self.new }
    {
        self.put_bytes(word);
        self.put_decimal(n);
    }

    // A word, and a number or, where there is none to show, other bytes.
    fn put_count(&mut self, word: &[u8], n: Option<usize>, other: &[u8])
        requires { self.old.length + length (word.now ++ shown n other.now) ≤ text_limit }
        ensures { Appends self.old (word.now ++ shown n other.now) self.new }
    {
        self.put_bytes(word);
        match n {
            Some(n) => self.put_decimal(n),
            None => self.put_bytes(other),
        }
    }

    // ---- lines

    // The line of a refusal. No `Display` with `write!`: that says what it wrote where it answers `Ok`, and nothing says
    // that it does where there is room.
    fn put_refused(&mut self, refusal: Refusal)
        requires { self.old.length ≡ 0 }
        ensures { Appends self.old (refused_text ++ decimal (number refusal.fault) ++ at_text ++ decimal refusal.place ++ newline) self.new × (self.new.length ≤ text_limit) }
    {
        self.put_field(b"refused ", usize::from(refusal.fault.number()));
        self.put_field(b" at ", refusal.place);
        self.put_bytes(b"\n");
    }

    // The first half of a function's line.
    fn put_head(&mut self, id: usize, inputs: usize, outputs: usize, nodes: usize)
        requires { self.old.length + length (head_text id inputs outputs nodes) ≤ text_limit }
        ensures { Appends self.old (head_text id inputs outputs nodes) self.new }
    {
        self.put_field(b"function ", id);
        self.put_field(b" inputs ", inputs);
        self.put_field(b" outputs ", outputs);
        self.put_field(b" nodes ", nodes);
    }

    // The second half.
    fn put_counts(&mut self, operations: usize, words: usize, code: usize)
        requires { self.old.length + length (counts_text operations words code) ≤ text_limit }
        ensures { Appends self.old (counts_text operations words code) self.new }
    {
        let few_operations = (operations <= OPERATION_LIMIT).then_some(operations);
        let few_words = (words <= WORD_LIMIT).then_some(words);
        let has_code = within_limits(operations, words).then_some(code);
        self.put_count(b" operations ", few_operations, b"over");
        self.put_count(b" words ", few_words, b"over");
        self.put_count(b" code ", has_code, b"none");
        self.put_bytes(b"\n");
    }

    // The line of a function, by its sizes.
    fn put_function(&mut self, table: &[u8], sizes: Sizes)
        requires { (self.old.length + line_limit ≤ text_limit) × (sizes.place + 6 ≤ length table.now) }
        ensures { Appends self.old (line_at table.now sizes.place sizes.operations sizes.words sizes.code) self.new × (self.new.length ≤ self.old.length + line_limit) }
    {
        let p = sizes.place;
        let id = u16_at(table, p);
        let inputs = usize::from(table[p + 2]);
        let outputs = usize::from(table[p + 3]);
        let nodes = u16_at(table, p + 4);
        self.put_head(id, inputs, outputs, nodes);
        self.put_counts(sizes.operations, sizes.words, sizes.code);
    }

    // The lines of the first `count` functions of an accepted table, whose sums are taken.
    fn put_functions(
        &mut self,
        table: &[u8],
        count: usize,
        starts: &[usize; FUNCTION_LIMIT],
        sums: &[Sums; FUNCTION_LIMIT],
    )
        requires length_le_first_limit { (self.old.length ≤ first_limit) × Accepted table.now count × Started table.now starts.now count }
        requires sums_held { SumsHeld table.now sums.now count }
        ensures { Appends self.old (function_lines (before table.now count)) self.new × (self.new.length ≤ text_limit) }
    {
        for k in 0..count {
            let sizes = sums::sizes_at(table, starts, k, sums);
            self.put_function(table, sizes);
        }
    }

    // The same, with the sums taken first.
    fn put_table(&mut self, table: &[u8], count: usize)
        requires { (verdict table.now ≡ ok count) × (self.old.length ≤ first_limit) }
        ensures { Appends self.old (function_lines (before table.now count)) self.new × (self.new.length ≤ text_limit) }
    {
        let mut starts = [0usize; FUNCTION_LIMIT];
        let mut sums = [Sums::NONE; FUNCTION_LIMIT];
        sums::find_starts(table, count, &mut starts);
        sums::all_sums(table, &starts, count, &mut sums);
        self.put_functions(table, count, &starts, &sums);
    }

    // The text of an accepted table with so many functions.
    fn put_accepted(&mut self, table: &[u8], count: usize)
        requires { (verdict table.now ≡ ok count) × (self.old.length ≡ 0) }
        ensures { Appends self.old (listing table.now) self.new × (self.new.length ≤ text_limit) }
    {
        self.put_field(b"accepted ", count);
        self.put_bytes(b"\n");
        self.put_table(table, count);
    }

    // The text for a table.
    fn put_listing(&mut self, table: &[u8])
        requires { self.old.length ≡ 0 }
        ensures { Appends self.old (listing table.now) self.new × (self.new.length ≤ text_limit) }
    {
        match checker::check(table) {
            Ok(count) => self.put_accepted(table, count),
            Err(refusal) => self.put_refused(refusal),
        }
    }
}

// The text for a table, from the first byte on; the answer is its length.
pub fn list_table(table: &[u8], text: &mut [u8; TEXT_LIMIT]) -> usize
    ensures written { text.new ≡ sets text.old 0 (listing table.now) }
    ensures value { (result ≡ length (listing table.now)) × (result ≤ text_limit) }
{
    let mut out = Text {
        bytes: text,
        length: 0,
    };
    out.put_listing(table);
    out.length
}
