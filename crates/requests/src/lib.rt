// What one line of input is answered: `answer` chooses the request by the line's first word.
#![tactic(auto)]

pub mod answer;
