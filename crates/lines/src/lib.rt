// The lines of ringrun's text, put on a page. Document 01, "The tape", its last paragraph.
#![tactic(auto)]

ghost use Rattle.std.specs.Prelude.{◌≡◌, [], ◌∷◌, ◌++◌, ◌+◌, ◌*◌, ◌/◌, ◌≤◌, length};
ghost use Rattle.machine.specs.Text.{decimal, space};
ghost use Rattle.machine.specs.Report.{code_word, record_line, record_lines, counts_line, last_line, refusal_line};
ghost use Rattle.text.specs.Puts.{HasRoom, Puts};

use little_endian::Word;
use machine::{Counts, Refusal};
use text::Page;

// What a record's code is called. By number: it is read from a byte of the ledger, and an enum would have to be made of
// it by a conversion that can fail, where this can't.
#[tactic(auto, unfolding(machine::specs::Text::text))]
fn word(code: u8) -> &'static str
    ensures word { result.now ≡ code_word code }
    ensures short { length result.now ≤ 4 }
{
    match code {
        2 => "fill",
        3 => "take",
        4 => "sent",
        5 => "got",
        // No record has another code.
        _ => "",
    }
}

// The line of a record's 12 bytes: event, process, word, message. At most 31 bytes: 10 + 1, 3 + 1, 4 + 1 and 10 + 1.
#[tactic(auto, using(machine::proofs::Text::decimal_32, machine::proofs::Text::decimal_8))]
fn put_record(page: &mut Page<'_>, entry: &[u8])
    requires { HasRoom page.old 31 × (length entry.now ≡ 12) }
    ensures line { Puts page.old (record_line entry.now 0) page.new }
    ensures short { page.new.end ≤ page.old.end + 31 }
{
    let event = u64::from(u32::read_at(entry, 0));
    let process = u64::from(entry[4]);
    let code = entry[5];
    let message = u64::from(u32::read_at(entry, 8));
    page.field(event, b' ');
    page.field(process, b' ');
    page.field(word(code), b' ');
    page.field(message, b'\n');
}

// The lines of a ledger's records.
fn put_records(page: &mut Page<'_>, ledger: &[u8])
    requires { HasRoom page.old (31 * (length ledger.now / 12)) }
    ensures lines { Puts page.old (record_lines ledger.now (length ledger.now / 12)) page.new }
    ensures short { page.new.end ≤ page.old.end + 31 * (length ledger.now / 12) }
{
    for entry in ledger.chunks_exact(12) {
        put_record(page, entry);
    }
}

// A count behind its name, each with the byte that follows it. At most 22 bytes beside the name.
#[tactic(auto, using(machine::proofs::Text::decimal_64))]
fn put_count(page: &mut Page<'_>, name: &str, count: u64, behind: u8)
    requires { HasRoom page.old (length name.now + 22) }
    ensures count { Puts page.old ((name.now ++ (space ∷ [])) ++ (decimal count ++ (behind ∷ []))) page.new }
    ensures short { page.new.end ≤ page.old.end + (length name.now + 22) }
{
    page.field(name, b' ');
    page.field(count, behind);
}

// The line of the counts, but for that of records. At most 183 bytes: 29 letters, and 22 more a count. A table of names
// and counts would have as many lines, a loop and an invariant besides, and the last count apart, which ends the line.
fn put_counts(page: &mut Page<'_>, counts: Counts)
    requires { HasRoom page.old 183 }
    ensures line { Puts page.old (counts_line counts) page.new }
    ensures short { page.new.end ≤ page.old.end + 183 }
{
    put_count(page, "puts", counts.puts, b' ');
    put_count(page, "gets", counts.gets, b' ');
    put_count(page, "fills", counts.fills, b' ');
    put_count(page, "takes", counts.takes, b' ');
    put_count(page, "sent", counts.sent, b' ');
    put_count(page, "got", counts.got, b' ');
    put_count(page, "idle", counts.idle, b'\n');
}

// Whether the ring is stopped: at most 8 bytes.
fn put_end(page: &mut Page<'_>, stopped: bool)
    requires { HasRoom page.old 8 }
    ensures { Puts page.old (last_line stopped) page.new }
{
    page.field(if stopped { "stopped" } else { "moving" }, b'\n');
}

// Internal: the text of a run that is done: its ledger's records, its counts, and whether the ring is then stopped.
pub fn put_ran(page: &mut Page<'_>, ledger: &[u8], counts: Counts, stopped: bool)
    requires { HasRoom page.old (31 * counts.records + 191)
        × (12 * counts.records ≤ length ledger.now) }
    ensures { Puts page.old
        (record_lines ledger.now counts.records ++ (counts_line counts ++ last_line stopped))
        page.new }
{
    put_records(page, &ledger[..12 * counts.records as usize]);
    put_counts(page, counts);
    put_end(page, stopped);
}

// Internal: a refusal. At most 53 bytes: 7 + 1, 20 + 1, 2 + 1 and 20 + 1.
#[tactic(auto, using(machine::proofs::Text::decimal_64))]
pub fn put_refusal(page: &mut Page<'_>, refusal: Refusal)
    requires { HasRoom page.old 53 }
    ensures { Puts page.old (refusal_line refusal) page.new }
{
    page.field("refused", b' ');
    page.field(refusal.number(), b' ');
    page.field("at", b' ');
    page.field(refusal.place() as u64, b'\n');
}
