// The five calls of whoever makes rings and tapes as C calls them: each is that of `ring_tools`, with its promise,
// under its name. A static library and nothing more, as `ring_host_c` is.
#![tactic(auto)]

ghost use Rattle.std.specs.Prelude.{◌≡◌};
ghost use Rattle.machine.specs.Answers.{fresh_answer, fresh_image, read_answer};
ghost use Rattle.machine.specs.Answers.{read_output, write_answer, write_output};
ghost use Rattle.machine.specs.Host.{returned, result_after, lent_with};
ghost use Rattle.machine.specs.Load.{load_answer, load_output};
ghost use Rattle.machine.specs.Survey.{survey_answer};

// The fresh ring call: there are no values to tell.
#[unsafe(no_mangle)]
pub extern "C" fn ring_fresh(n: u64, home: u64, image: &mut [u8], res: &mut [u8]) -> u64
    ensures number { result ≡ returned (fresh_answer n home image.old) res.old }
    ensures buffer { image.new
        ≡ lent_with res.old image.old (fresh_image n home image.old) }
    ensures told { res.new
        ≡ result_after (fresh_answer n home image.old) res.old }
{
    ring_tools::ring_fresh::ring_fresh(n, home, image, res)
}

// The load call: how many bytes it filled is told.
#[unsafe(no_mangle)]
pub extern "C" fn ring_load(n: u64, seed: u64, count: u64, output: &mut [u8], res: &mut [u8]) -> u64
    ensures number { result ≡ returned (load_answer n seed count output.old) res.old }
    ensures buffer { output.new
        ≡ lent_with res.old output.old (load_output n seed count output.old) }
    ensures told { res.new
        ≡ result_after (load_answer n seed count output.old) res.old }
{
    ring_tools::ring_load::ring_load(n, seed, count, output, res)
}

// The reader call: how many bytes it filled is told.
#[unsafe(no_mangle)]
pub extern "C" fn ring_read(n: u64, tape: &[u8], output: &mut [u8], res: &mut [u8]) -> u64
    ensures number { result
        ≡ returned (read_answer n tape.now output.old) res.old }
    ensures buffer { output.new
        ≡ lent_with res.old output.old
        (read_output n tape.now output.old) }
    ensures told { res.new
        ≡ result_after (read_answer n tape.now output.old) res.old }
{
    ring_tools::ring_read::ring_read(n, tape, output, res)
}

// The survey call: the verdict's number and place, the flags and both sets are told.
#[unsafe(no_mangle)]
pub extern "C" fn ring_survey(image: &[u8], res: &mut [u8]) -> u64
    ensures number { result ≡ returned (survey_answer image.now) res.old }
    ensures told { res.new
        ≡ result_after (survey_answer image.now) res.old }
{
    ring_tools::ring_survey::ring_survey(image, res)
}

// The writer call: how many bytes it filled is told.
#[unsafe(no_mangle)]
pub extern "C" fn ring_write(n: u64, list: &[u8], output: &mut [u8], res: &mut [u8]) -> u64
    ensures number { result
        ≡ returned (write_answer n list.now output.old) res.old }
    ensures buffer { output.new
        ≡ lent_with res.old output.old
        (write_output n list.now output.old) }
    ensures told { res.new
        ≡ result_after (write_answer n list.now output.old) res.old }
{
    ring_tools::ring_write::ring_write(n, list, output, res)
}
