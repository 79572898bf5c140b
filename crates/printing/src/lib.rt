// What the programs print for a text. Document 01, Calls; document 02, F-9, F-11 and F-12. It depends on `checker` for the calls, on
// `opening` for what they return, on `text` for writing a refusal, and on `input` for reading.
#![tactic(auto)]

ghost use Rattle.std.specs.Prelude.{◌≡◌, length};
ghost use Rattle.sheet.specs.Sizes.{program_output};
ghost use Rattle.sheet.specs.Report.{printed, program};
ghost use Rattle.sheet.specs.Profile.{profile_of};
ghost use Rattle.sheet.specs.Rows.{rows_program};
ghost use Rattle.sheet.specs.Origin.{origin_program};
ghost use Rattle.printing.specs.Answered.{Prints};
ghost use Rattle.printing.specs.Printed.{Front};

pub mod programs; // a text read, and what is printed for it written

use checker::profile_call::ocl_read_free_numbering;
use checker::report_call::ocl_report;
use checker::rows_call::ocl_rows;
use checker::undefined_call::ocl_undefined;
use opening::Answer;
use text::printed::put_refusal;

// What is printed for a call's answer: the output that it left, or the refusal.
fn put_answer(answer: Answer, out: &mut [u8]) -> usize
    requires { length out.old ≡ program_output }
    ensures { Prints answer out.old out.new result }
{
    let number = answer.number;
    if number == 0 {
        return answer.length as usize;
    }
    put_refusal(number, answer.place, out)
}

// Puts what the report's program prints for a text at the front of the output, and answers its length.
pub fn printed_text(text: &[u8], out: &mut [u8; memory::PROGRAM_OUTPUT]) -> usize
    ensures { Front (program text.now) out.new result }
{
    let mut w0: [u64; memory::LEAST_WORDS] = [0; memory::LEAST_WORDS];
    let mut w1: [u64; memory::LEAST_WORDS] = [0; memory::LEAST_WORDS];
    let mut w2: [u64; memory::LEAST_WORDS] = [0; memory::LEAST_WORDS];
    let answer = ocl_report(text, &mut w0, &mut w1, &mut w2, out);
    put_answer(answer, out)
}

// The same for the program that prints rows.
pub fn printed_rows(text: &[u8], out: &mut [u8; memory::PROGRAM_OUTPUT]) -> usize
    ensures { Front (rows_program text.now) out.new result }
{
    let mut w0: [u64; memory::LEAST_WORDS] = [0; memory::LEAST_WORDS];
    let mut w1: [u64; memory::LEAST_WORDS] = [0; memory::LEAST_WORDS];
    let mut w2: [u64; memory::LEAST_WORDS] = [0; memory::LEAST_WORDS];
    let answer = ocl_rows(text, &mut w0, &mut w1, &mut w2, out);
    put_answer(answer, out)
}

// The same for the program that prints where undefined came from.
pub fn printed_origins(text: &[u8], out: &mut [u8; memory::PROGRAM_OUTPUT]) -> usize
    ensures { Front (origin_program text.now) out.new result }
{
    let mut w0: [u64; memory::LEAST_WORDS] = [0; memory::LEAST_WORDS];
    let mut w1: [u64; memory::LEAST_WORDS] = [0; memory::LEAST_WORDS];
    let mut w2: [u64; memory::LEAST_WORDS] = [0; memory::LEAST_WORDS];
    let answer = ocl_undefined(text, &mut w0, &mut w1, &mut w2, out);
    put_answer(answer, out)
}

// The same for the gate's program that holds a sheet to the profile.
pub fn printed_profile(text: &[u8], out: &mut [u8; memory::PROGRAM_OUTPUT]) -> usize
    ensures { Front (printed (profile_of text.now)) out.new result }
{
    let mut w0: [u64; memory::LEAST_WORDS] = [0; memory::LEAST_WORDS];
    let mut w1: [u64; memory::LEAST_WORDS] = [0; memory::LEAST_WORDS];
    let mut w2: [u64; memory::LEAST_WORDS] = [0; memory::LEAST_WORDS];
    let answer = ocl_read_free_numbering(text, &mut w0, &mut w1, &mut w2, out);
    put_answer(answer, out)
}
