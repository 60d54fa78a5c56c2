//! What no contract says of audits: that an answer comes, whatever the number of workers, and which it is for the reports of some
//! scripts, also with one thing changed; and that workers run at once.

mod acting;
mod answers;
mod at_once;
mod case;
mod causes;
mod changes;
mod differing;
mod forged;
