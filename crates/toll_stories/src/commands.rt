//! The plant's lines.
use std::alloc::{AllocError, Global};
use toll_desk::PlantCmd;
use toll_plant::{WordsFault, command_of};

/// The command of these words; `None` if they are no command's. An `Err` means that there was no memory.
pub fn plant_cmd(alloc: Global, words: &[&str]) -> Result<Option<PlantCmd>, AllocError> {
    match command_of(alloc, words) {
        Ok(command) => Ok(Some(command)),
        Err(WordsFault::Memory) => Err(AllocError),
        Err(WordsFault::Usage(_)) => Ok(None),
    }
}
