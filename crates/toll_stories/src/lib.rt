//! What tests share: stories of the office, which are lines of what is asked and what is replied to each; how
//! several stories begin; a keep that refuses a call, and streams that fail.
#![tactic(auto)]

mod ample;
mod chapters;
mod checks;
mod commands;
mod fakes;
mod http;
mod lines;
mod refusing;
mod said;
mod setups;
mod stocked;
mod stories;

pub use ample::check_receipts;
pub use chapters::Story;
pub use checks::check;
pub use commands::plant_cmd;
pub use fakes::{Sink, Source, read_pieces};
pub use http::{reply_said, request_of};
pub use lines::{HEADER, are_said, check_chapter, check_said, check_said_over, say, say_to_file};
pub use refusing::{Refused, Refusing};
pub use said::{plant_said, text_of};
pub use setups::{
    A_CONSUMED, CONSUMED_AND_PRODUCED, P1_PRODUCED, RELEASED_AND_PLACED, REPEATED_FILE, WITH_ACME,
    WITH_BATCH, WITH_HOUSE, WITH_ORDER, WITH_PRODUCT_OF_HOUSE, WITH_RECIPE, WITH_RECIPE_OF_HOUSE,
};
pub use stocked::{fill_stock, stock_text};
pub use stories::{
    IMPORTED, K2_IMPORTED, Offices, REFUSED_IMPORTS, RefusedStory, check_refused_import,
    check_stories,
};
