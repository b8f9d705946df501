//! What tests commits: a trait for testers, and the testers of a written plan, of a script and of a
//! command.
#![tactic(auto)]

mod answer;
mod host;
mod notes;
mod plan;
mod plan_tester;
mod process;
mod script;
mod stop;
mod tester;
mod waiting;
mod words;

pub use answer::{Answer, TestReply, Tested};
pub use host::Host;
pub use notes::Notes;
pub use plan_tester::PlanTester;
pub use process::ProcessTester;
pub use script::{FailRule, Gate, ScriptTester, Side};
pub use stop::StopView;
pub use tester::Tester;
