//! The one call that the program makes: words, a folder and streams come in, the status and the line of an answer go out.
#![tactic(auto)]

mod binding;
mod compiling;
mod exercising;
mod going;
mod listing;
mod loading;
mod planning;
mod printing;
mod running;
mod storing;
mod surveying;
mod top;
mod upgrading;
mod words;

pub use command_laws::one_case;
pub use command_lines::command_passes::Stop;
pub use command_lines::tell_stop;
pub use top::mesa;
