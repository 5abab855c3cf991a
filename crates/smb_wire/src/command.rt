//! Commands and their codes ([MS-SMB2] 2.2.1.2).

ghost use Rattle.std.specs.Prelude.{◌≡◌};
ghost use Rattle.smb_wire.specs.Commands.{code_of, known_command, EachCodeIsItsCommands};

/// A command of the standard.
#[derive(Clone, Copy, Debug, PartialEq, Eq)]
pub enum Command {
    Negotiate = 0,
    SessionSetup = 1,
    Logoff = 2,
    TreeConnect = 3,
    TreeDisconnect = 4,
    Create = 5,
    Close = 6,
    Flush = 7,
    Read = 8,
    Write = 9,
    Lock = 10,
    Ioctl = 11,
    Cancel = 12,
    Echo = 13,
    QueryDirectory = 14,
    ChangeNotify = 15,
    QueryInfo = 16,
    SetInfo = 17,
    OplockBreak = 18,
}

/// The commands in the order of their codes.
const COMMANDS: [Command; 19] = [
    Command::Negotiate,
    Command::SessionSetup,
    Command::Logoff,
    Command::TreeConnect,
    Command::TreeDisconnect,
    Command::Create,
    Command::Close,
    Command::Flush,
    Command::Read,
    Command::Write,
    Command::Lock,
    Command::Ioctl,
    Command::Cancel,
    Command::Echo,
    Command::QueryDirectory,
    Command::ChangeNotify,
    Command::QueryInfo,
    Command::SetInfo,
    Command::OplockBreak,
];

impl Command {
    /// The code of the command.
    pub fn code(self) -> CommandCode
        ensures { result.0 ≡ code_of self }
    {
        CommandCode(self as u16)
    }
}

/// The code of a command, also of one that the standard does not have.
#[derive(Clone, Copy, Debug, PartialEq, Eq)]
pub struct CommandCode(pub u16);

impl CommandCode {
    /// The command of this code, or None past the last one, 0x12.
    #[tactic(auto, unfolding(crate::specs::Commands::known_command))]
    pub fn known(self) -> Option<Command>
        ensures { result ≡ known_command self.0 }
    {
        let command = COMMANDS.get(self.0 as usize)?;
        Some(*command)
    }
}

/// The laws of commands and their codes: the contract is the statement, and the body does nothing.
pub fn laws_of_commands()
    ensures { EachCodeIsItsCommands }
{}
