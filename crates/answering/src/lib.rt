// What each call answers for a text, once enough is lent: the text is read and typed, and the answer is formed from its sheet. The words are
// not wiped yet; `checker` above has the calls themselves. Document 01, Calls; document 02, F-6 and F-9 to F-12. It depends on `opening` for
// how a call begins, on `rules` for a rule's evaluation, on `report` for the report and for where undefined came from, on `rows` for the
// rows, on `numbering` for the profile, and on `making` and `editing` for a running board.
#![tactic(auto)]

pub mod read; // the types of all rules
pub mod free_numbering; // the same, held to the free-numbering profile
pub mod evaluate; // a rule for an object
pub mod verdicts; // the report
pub mod origins; // where undefined came from
pub mod seen_rows; // the rows that rules see
pub mod make; // a running board
pub mod edit; // an edit of it
