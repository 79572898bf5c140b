// What C calls of `checker`: a crate is a library or a static library, so that the exports stand here. Each calls the function of its
// name and states its clauses again. It depends on `opening` for what they return.
#![tactic(auto)]

ghost use Rattle.board_words.proofs.Found.{layout};
ghost use Rattle.checker.specs.Boards.{AnswersEdit, AnswersMade};
ghost use Rattle.sheet.specs.Calls.{evaluate_call, read_call};
ghost use Rattle.opening.specs.Answers.{AnswersWith};
ghost use Rattle.sheet.specs.Profile.{profile_call};
ghost use Rattle.sheet.specs.Report.{report_call};
ghost use Rattle.sheet.specs.Rows.{rows_call};
ghost use Rattle.sheet.specs.Origin.{origin_call};

use opening::Answer;

// Edits the running board of a sheet: 0 with all verdicts in out, the board after the edit in words and the steps of the rules that were
// evaluated again, else a refusal, which leaves both as they are. A slice of words below 8,192, or an out below 2,560 bytes, is refused
// with 1. The text is the one that the board was made of, and nobody else has touched the board: else the call only ends.
#[unsafe(no_mangle)]
pub extern "C" fn ocl_edit_board(
    text: &[u8],
    edit: &[u8],
    w0: &mut [u64],
    w1: &mut [u64],
    w2: &mut [u64],
    words: &mut [u64],
    out: &mut [u8],
) -> Answer
    ensures { AnswersEdit layout text.now edit.now result w0.old w1.old w2.old words.old out.old w0.new w1.new w2.new words.new out.new }
{
    checker::edit_board_call::ocl_edit_board(text, edit, w0, w1, w2, words, out)
}

// Evaluates a rule for an object: 0 with `u` or the value's spelling in out, and the steps; else a refusal or a stop. A slice of words
// below 8,192, or an out below 2,560 bytes, is refused with 1.
#[unsafe(no_mangle)]
pub extern "C" fn ocl_evaluate_rule(
    text: &[u8],
    rule: u64,
    object: u64,
    w0: &mut [u64],
    w1: &mut [u64],
    w2: &mut [u64],
    out: &mut [u8],
) -> Answer
    ensures { AnswersWith (evaluate_call text.now rule object w0.old w1.old w2.old out.old) result w0.old w1.old w2.old out.old w0.new w1.new w2.new out.new }
{
    checker::evaluate_call::ocl_evaluate_rule(text, rule, object, w0, w1, w2, out)
}

// Makes the running board of a sheet: 0 with all verdicts in out and the board in words, else a refusal, which leaves both as they are. A
// slice of words below 8,192, or an out below 2,560 bytes, is refused with 1.
#[unsafe(no_mangle)]
pub extern "C" fn ocl_make_board(
    text: &[u8],
    w0: &mut [u64],
    w1: &mut [u64],
    w2: &mut [u64],
    words: &mut [u64],
    out: &mut [u8],
) -> Answer
    ensures { AnswersMade layout text.now result w0.old w1.old w2.old words.old out.old w0.new w1.new w2.new words.new out.new }
{
    checker::make_board_call::ocl_make_board(text, w0, w1, w2, words, out)
}

// Reads a sheet and types all its rules as `ocl_read_sheet` does, and refuses with 22 what is outside the free-numbering profile. A slice
// of words below 8,192, or an out below 2,560 bytes, is refused with 1.
#[unsafe(no_mangle)]
pub extern "C" fn ocl_read_free_numbering(
    text: &[u8],
    w0: &mut [u64],
    w1: &mut [u64],
    w2: &mut [u64],
    out: &mut [u8],
) -> Answer
    ensures { AnswersWith (profile_call text.now w0.old w1.old w2.old out.old) result w0.old w1.old w2.old out.old w0.new w1.new w2.new out.new }
{
    checker::profile_call::ocl_read_free_numbering(text, w0, w1, w2, out)
}

// Reads a sheet and types all its rules in order: 0 with one type a line in out, else a refusal, which leaves out as it is. A slice of
// words below 8,192, or an out below 2,560 bytes, is refused with 1.
#[unsafe(no_mangle)]
pub extern "C" fn ocl_read_sheet(
    text: &[u8],
    w0: &mut [u64],
    w1: &mut [u64],
    w2: &mut [u64],
    out: &mut [u8],
) -> Answer
    ensures { AnswersWith (read_call text.now w0.old w1.old w2.old out.old) result w0.old w1.old w2.old out.old w0.new w1.new w2.new out.new }
{
    checker::read_call::ocl_read_sheet(text, w0, w1, w2, out)
}

// Writes the report of a sheet: 0 with its lines in out, else a refusal, which leaves out as it is. A slice of words below 8,192, or an out
// below 2,560 bytes, is refused with 1.
#[unsafe(no_mangle)]
pub extern "C" fn ocl_report(
    text: &[u8],
    w0: &mut [u64],
    w1: &mut [u64],
    w2: &mut [u64],
    out: &mut [u8],
) -> Answer
    ensures { AnswersWith (report_call text.now w0.old w1.old w2.old out.old) result w0.old w1.old w2.old out.old w0.new w1.new w2.new out.new }
{
    checker::report_call::ocl_report(text, w0, w1, w2, out)
}

// Writes for each rule of a sheet a line with the rows that it sees: 0 with the lines in out, else a refusal, which leaves out as it is. A
// slice of words below 8,192, or an out below 2,560 bytes, is refused with 1.
#[unsafe(no_mangle)]
pub extern "C" fn ocl_rows(
    text: &[u8],
    w0: &mut [u64],
    w1: &mut [u64],
    w2: &mut [u64],
    out: &mut [u8],
) -> Answer
    ensures { AnswersWith (rows_call text.now w0.old w1.old w2.old out.old) result w0.old w1.old w2.old out.old w0.new w1.new w2.new out.new }
{
    checker::rows_call::ocl_rows(text, w0, w1, w2, out)
}

// Writes for each undefined verdict of a sheet a line with its rule and object, and the line and the step of the node at which undefined
// arose: 0 with the lines in out, else a refusal, which leaves out as it is. A slice of words below 8,192, or an out below 2,560 bytes, is
// refused with 1.
#[unsafe(no_mangle)]
pub extern "C" fn ocl_undefined(
    text: &[u8],
    w0: &mut [u64],
    w1: &mut [u64],
    w2: &mut [u64],
    out: &mut [u8],
) -> Answer
    ensures { AnswersWith (origin_call text.now w0.old w1.old w2.old out.old) result w0.old w1.old w2.old out.old w0.new w1.new w2.new out.new }
{
    checker::undefined_call::ocl_undefined(text, w0, w1, w2, out)
}
