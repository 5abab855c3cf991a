//! Who lets clients in by NTLM, and its random seed.

use smb_command_line::{NamedFile, NtlmWords};
use smb_config::{Accounts, Configuration};
use smb_ntlm::{Ntlm, SigningMode};
use smb_replay::{CommandFault, new_ntlm, signing_of};
use std::alloc::Global;
use std::io::Read;

/// How accounts' sessions are signed that are served, where nothing says how.
pub const SERVED_SIGNING: SigningMode = SigningMode::Offered;

/// Where the system gives random bytes.
const RANDOM: &[u8] = b"/dev/urandom";

/// The accounts of a text; none where there is no text.
pub fn read_accounts(alloc: Global, text: Option<&str>) -> Result<Accounts, CommandFault> {
    match text {
        Some(text) => Accounts::read(alloc, text).map_err(CommandFault::of_accounts),
        None => Ok(Accounts::none(alloc)),
    }
}

/// A seed of random bytes of the system.
pub fn random_seed() -> Result<[u8; 16], CommandFault> {
    let mut seed = [0u8; 16];
    let Ok(mut file) = NamedFile::open(RANDOM) else {
        return Err(CommandFault::SeedFailed);
    };
    match file.read_exact(&mut seed) {
        Ok(()) => Ok(seed),
        Err(_) => Err(CommandFault::SeedFailed),
    }
}

/// A random number of the system.
pub fn random_number() -> Result<u64, CommandFault> {
    let mut number = 0u64;
    for byte in random_seed()? {
        number = (number << 8) | byte as u64;
    }
    Ok(number)
}

/// A seed that is given, or one of the system's.
fn given_or_random(seed: Option<[u8; 16]>) -> Result<[u8; 16], CommandFault> {
    match seed {
        Some(seed) => Ok(seed),
        None => random_seed(),
    }
}

/// Who lets clients in by NTLM, as the words say: as an account, or as a guest where the configuration lets guests in.
/// Where no seed is given it is one of the system's; accounts' sessions are signed as is usual, where neither words
/// nor configuration say how.
pub fn ntlm_of(
    alloc: Global,
    configuration: &Configuration,
    accounts: Accounts,
    words: NtlmWords,
    usual: SigningMode,
) -> Result<Ntlm, CommandFault> {
    let seed = given_or_random(words.seed)?;
    let signing = signing_of(configuration, &accounts, words.signing, usual)?;
    new_ntlm(alloc, configuration, accounts, seed, signing)
}
