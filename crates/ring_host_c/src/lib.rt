// The three calls of the suite's host as C calls them: each is that of `ring_host`, with its promise, under its name.
// A static library and nothing more, since what is exported to C can't be a library of Rattle's too.
#![tactic(auto)]

ghost use Rattle.std.specs.Prelude.{◌≡◌};
ghost use Rattle.machine.specs.Answers.{run_answer, run_image, run_ledger, step_answer, step_image, stopped_answer};
ghost use Rattle.machine.specs.Host.{returned, result_after, lent_with};

// The run call: the eight counts are told, then the traffic.
#[unsafe(no_mangle)]
pub extern "C" fn ring_run(image: &mut [u8], tape: &[u8], ledger: &mut [u8], res: &mut [u8]) -> u64
    ensures number { result
        ≡ returned (run_answer image.old tape.now ledger.old) res.old }
    ensures buffer { image.new
        ≡ lent_with res.old image.old
        (run_image image.old tape.now ledger.old) }
    ensures records { ledger.new
        ≡ lent_with res.old ledger.old
        (run_ledger image.old tape.now ledger.old) }
    ensures told { res.new
        ≡ result_after (run_answer image.old tape.now ledger.old)
        res.old }
{
    ring_host::ring_run::ring_run(image, tape, ledger, res)
}

// The step call: the outcome's number and message are told, then the traffic.
#[unsafe(no_mangle)]
pub extern "C" fn ring_step(image: &mut [u8], event: &[u8], res: &mut [u8]) -> u64
    ensures number { result
        ≡ returned (step_answer image.old event.now) res.old }
    ensures buffer { image.new
        ≡ lent_with res.old image.old (step_image image.old event.now) }
    ensures told { res.new
        ≡ result_after (step_answer image.old event.now) res.old }
{
    ring_host::ring_step::ring_step(image, event, res)
}

// The stopped call: 1 is told for yes, 0 for no.
#[unsafe(no_mangle)]
pub extern "C" fn ring_stopped(image: &[u8], res: &mut [u8]) -> u64
    ensures number { result ≡ returned (stopped_answer image.now) res.old }
    ensures told { res.new
        ≡ result_after (stopped_answer image.now) res.old }
{
    ring_host::ring_stopped::ring_stopped(image, res)
}
