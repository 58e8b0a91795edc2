// "One call", its table of statuses: the checks 11 to 17 and the rows 1 and 2. They only read; what they say is the rules' verdict.
#![tactic(auto)]

mod lengths;
mod order;
mod places;
mod verdict;

pub use lengths::MOST_RECORDS;
pub use verdict::status_before_work;
