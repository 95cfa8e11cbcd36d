//! Commands to batches.
ghost use Rattle.std.specs.Prelude.{◌≡◌, Some, ◌↔◌};
ghost use Rattle.toll_base.specs.Bytes.{same_bytes};
ghost use Rattle.toll_base.specs.States.{word_of_command, read_command};
ghost use Rattle.toll_base.specs.declared.state_command.StateCommand.{StateCommand};

/// A command to a batch, or a report on it: `Done` reports that a transient state, or running, has
/// ended. The commands are named after IEC 61512-1.
#[derive(Clone, Copy, PartialEq, Eq)]
pub enum StateCommand {
    Done,
    Start,
    Stop,
    Hold,
    Restart,
    Abort,
    Reset,
    Pause,
    Resume,
}

const COMMANDS: [StateCommand; 9] = [
    StateCommand::Done,
    StateCommand::Start,
    StateCommand::Stop,
    StateCommand::Hold,
    StateCommand::Restart,
    StateCommand::Abort,
    StateCommand::Reset,
    StateCommand::Pause,
    StateCommand::Resume,
];

impl StateCommand {
    /// The command with this word.
    pub fn read(bytes: &[u8]) -> Option<Self>
        ensures read { result ≡ read_command bytes.now }
        ensures exact { (command : StateCommand) → (result ≡ Some command) ↔ (bytes.now ≡ word_of_command command) }
    {
        Self::with_word(bytes)
    }

    fn with_word(bytes: &[u8]) -> Option<Self>
        ensures { result ≡ read_command bytes.now }
    {
        COMMANDS
            .iter()
            .copied()
            .find(|command| command.has_word(bytes))
    }

    fn has_word(&self, bytes: &[u8]) -> bool
        ensures { result ≡ same_bytes bytes.now (word_of_command self.now) }
    {
        bytes.cmp(self.word().as_bytes()).is_eq()
    }

    /// How the plant writes it, such as `start`.
    pub fn word(&self) -> &'static str
        ensures { result.now ≡ word_of_command self.now }
    {
        match self {
            StateCommand::Done => "done",
            StateCommand::Start => "start",
            StateCommand::Stop => "stop",
            StateCommand::Hold => "hold",
            StateCommand::Restart => "restart",
            StateCommand::Abort => "abort",
            StateCommand::Reset => "reset",
            StateCommand::Pause => "pause",
            StateCommand::Resume => "resume",
        }
    }
}
