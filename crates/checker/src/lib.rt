// The public calls. Each reads the text anew, uses the lent words as working memory and leaves their first 8,192 words zero. Document 01,
// Calls; document 02, F-6 and F-9 to F-12. It depends on `answering` for what each of them answers, and on `opening` for what is lent and
// wiped.
#![tactic(auto)]

pub mod edit_board_call; // ocl_edit_board
pub mod evaluate_call; // ocl_evaluate_rule
pub mod make_board_call; // ocl_make_board
pub mod profile_call; // ocl_read_free_numbering
pub mod read_call; // ocl_read_sheet
pub mod report_call; // ocl_report
pub mod rows_call; // ocl_rows
pub mod undefined_call; // ocl_undefined
