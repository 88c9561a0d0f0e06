// A run's ledger, which is its trace. Document 01, "The run".
#![tactic(auto)]

ghost use Rattle.std.specs.Prelude.{◌≡◌, ◌+◌, ◌≤◌, ◌<◌, length};
ghost use Rattle.machine.specs.Bytes.{splice};
ghost use Rattle.machine.specs.Run.{outcome_number, ledger_entry};
ghost use Rattle.ledger.specs.Record.{record_of, entered_in};

use event::Event;
use little_endian::Word;
use machine::Outcome;
use span::put;

// Internal: a record, written from `at` on: event number, process, code, two zeros, message. The code is a byte of the
// format here, and may be any.
pub fn put_record(ledger: &mut [u8], at: usize, number: u32, process: u8, code: u8, message: u32)
    requires { at + 12 ≤ length ledger.old }
    ensures { ledger.new ≡ splice ledger.old at (record_of number process code message) }
{
    number.write_at(ledger, at);
    put(ledger, at + 4, &[process, code, 0, 0]);
    message.write_at(ledger, at + 8);
}

// Internal: the record of a fill, take, sent or got of an event with this number, written from `at` on where the ledger
// has room for it.
pub fn enter(ledger: &mut [u8], at: usize, number: u32, event: Event, outcome: Outcome)
    requires { (event.process < 256) × (at ≤ 4294967295) × (2 ≤ outcome_number outcome) }
    ensures { ledger.new
        ≡ entered_in ledger.old at (ledger_entry number event.process outcome) }
{
    if ledger.len() < at + 12 {
        return;
    }
    let code = outcome.number();
    let message = outcome.message();
    put_record(ledger, at, number, event.process as u8, code, message);
}
