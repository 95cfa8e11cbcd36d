//! What the program does, over any keep and any streams: a script, a command or question of the plant, and
//! the import of a file of actuals; what it writes to which stream, and its exit status. Also the client's
//! side of a server: the program sends the call to it, and prints its response.
#![tactic(auto)]

mod calling;
mod commands;
mod connector;
mod cutting;
mod ending;
mod events;
mod imports;
mod input;
mod laws;
mod output;
mod printing;
mod reporting;
mod request_line;
mod scripts;
mod status;
mod task;
mod tracked_stream;
mod version;

pub use calling::run_on_server;
pub use commands::{execute, plant_line};
pub use connector::{Connector, try_server};
pub use ending::report_end;
pub use imports::{import_file, output_of_import, output_of_stopped_import, plant_import};
pub use input::{FrontFault, read_front};
pub use laws::{limits_are_those_defined, the_usage_has_every_command};
pub use output::Output;
pub use reporting::{numbered, print, report, warn};
pub use request_line::RequestLine;
pub use scripts::{ScriptEnd, script};
pub use status::Status;
pub use task::{MOST_CONNECTIONS_SERVED, Task, task_of, usage_of};
pub use toll_plant::MOST_FILE_BYTES;
pub use tracked_stream::{TrackedStream, TracksReads};
pub use version::VERSION;
