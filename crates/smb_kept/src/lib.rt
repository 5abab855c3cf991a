//! A share that is kept in a file, a journal or a recording, and what is made of such a file.
//!
//! ```text
//!    keep_changes   a journal is opened or made; the files that it keeps are a tree that goes on
//!                   there; one that is much longer than they need is written anew before
//!    KeptPeers      ... nothing is sent while what changed is not kept
//!    journal_files  the files of a journal, where no share goes on with it
//!    Keeping        a new file is made, in which a share is recorded
//!    perform        a recording line by line on a new share; who [`Hears`] it hears each event with its answers
//!    put_folder_in  the program's own client puts the files of a folder into a new share
//!    extract        the files that a journal or a recording leaves, as a new folder
//!    salvage        ... of a journal that is damaged what is whole
//!    compact        ... as a new journal
//! ```
//!
//! A caller makes the share and lends it to these calls: [`recorded_share`] makes one whose authenticator gives the
//! recorded answers first. The files are of smb_journal, the requests of the program's own client of smb_folder.
//!
//! That the calls are safe and return is proved. That what was answered is not lost is tested (tests/keeping), and what
//! the system does with files is trusted.
#![tactic(auto)]

mod compacted;
mod doubts;
mod extracted;
mod fault;
mod files;
mod first_line;
mod journal;
mod journal_left;
mod keeping;
mod kept_peers;
mod kind;
mod leaving;
mod own_client;
mod performed;
mod performing;
mod progress;
mod putting;
mod room;
mod salvaged;
mod salvaged_tree;
mod share;
mod steps;

pub use compacted::{Compacted, compact};
pub use extracted::{Extracted, SalvageReport, extract, salvage};
pub use fault::KeptFault;
pub use journal::{FileFault, JournalWords, Kept, keep_changes};
pub use journal_left::{JournalFiles, journal_files};
pub use keeping::{KeepWords, Keeping};
pub use kept_peers::KeptPeers;
pub use kind::Kind;
pub use own_client::{own_answer, own_answers, path_of};
pub use performed::{Deaf, Hears, perform};
pub use performing::{perform_file, read_recording};
pub use putting::{OwnLine, OwnRecord, put_folder_in};
pub use salvaged::Damage;
pub use salvaged_tree::{Loss, Missing};
pub use share::{RecordedShare, nobody, recorded_login, recorded_share, share_of};
pub use smb_folder::Put;
pub use steps::Steps;
