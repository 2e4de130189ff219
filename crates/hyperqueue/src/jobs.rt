// Jobs, for hosts in other languages: the job test and the serial runner.
ghost use Rattle.std.specs.Prelude.{◌≡◌};
ghost use Rattle.spec_job.specs.Test.{job_answer};
ghost use Rattle.spec_serial.specs.Working.{lists};
ghost use Rattle.spec_serial.specs.Outcome.{serial_outcome};
ghost use Rattle.serial_runner.specs.Handed.{Handed};
ghost use Rattle.hyperqueue.specs.Packed.{packed};

// Moved where the bytes are a job, refused with 10, 11 or 12 where not.
#[unsafe(no_mangle)]
pub extern "C" fn hq_job_test(job: &[u8]) -> u64
    ensures { result ≡ packed (job_answer job.now) }
{
    crate::pack(job_test::job_test(job))
}

// The end in the high half, the steps made in the low half; lists and answers as docs/LAYOUT.md says.
#[unsafe(no_mangle)]
pub extern "C" fn hq_run_serially(job: &[u8], working: &mut [u32], answers: &mut [u32]) -> u64
    ensures { Handed result (lists working.new) answers.new
        (serial_outcome job.now working.old answers.old) }
{
    serial_runner::run_packed(job, working, answers)
}
