//! A share to which clients log in by NTLM, and a replay on one.

use crate::fault::{CommandFault, Detail};
use crate::replay::replay_on_share;
use smb_config::{Accounts, ConfigRule, Configuration};
use smb_engine::{ServeFault, Share};
use smb_handles::HandleTable;
use smb_nodes::NodeTree;
use smb_ntlm::{Ntlm, SigningMode};
use std::alloc::Global;
use std::io::{Read, Write};

/// Sees that a configuration has no sessions signed: without accounts none has a key.
///
/// [`CommandFault::ConfigRefused`] where it has.
pub fn check_unsigned(configuration: &Configuration) -> Result<(), CommandFault> {
    match configuration.signing {
        None | Some(SigningMode::Off) => Ok(()),
        Some(SigningMode::Offered | SigningMode::Required) => {
            Err(CommandFault::ConfigRefused(Some(ConfigRule::SigningUnused)))
        }
    }
}

/// How accounts' sessions are signed: as the words of a command say, or else the configuration, or as is usual; and not at all
/// without accounts.
///
/// [`CommandFault::ConfigRefused`] where the configuration has sessions signed, and there are no accounts.
pub fn signing_of(
    configuration: &Configuration,
    accounts: &Accounts,
    words: Option<SigningMode>,
    usual: SigningMode,
) -> Result<SigningMode, CommandFault> {
    if let Some(mode) = words {
        return Ok(mode);
    }
    if accounts.list.is_empty() {
        check_unsigned(configuration)?;
        return Ok(SigningMode::Off);
    }
    Ok(configuration.signing.unwrap_or(usual))
}

/// Who lets in the clients of a configuration by NTLM: as an account, or as a guest where the configuration lets guests in.
/// The challenges come from the seed. An account with `readonly = true` may only read, and so may guests where the
/// configuration has `guest_readonly = true`.
pub fn new_ntlm(
    alloc: Global,
    configuration: &Configuration,
    accounts: Accounts,
    seed: [u8; 16],
    signing: SigningMode,
) -> Result<Ntlm, CommandFault> {
    let ntlm = Ntlm::with_signing(
        alloc,
        seed,
        accounts.list,
        configuration.guest,
        configuration.guest_read_only,
        signing,
    )?;
    Ok(ntlm)
}

/// A new share of a configuration to which clients log in by NTLM, as [`new_ntlm`] lets them in. Nothing is signed, unless the
/// configuration has the key `signing`.
pub fn new_ntlm_share(
    alloc: Global,
    configuration: Configuration,
    accounts: Accounts,
    seed: [u8; 16],
) -> Result<Share<Ntlm, NodeTree, HandleTable>, CommandFault> {
    let signing = signing_of(&configuration, &accounts, None, SigningMode::Off)?;
    let ntlm = new_ntlm(alloc, &configuration, accounts, seed, signing)?;
    let Configuration { limits, config, .. } = configuration;
    match Share::in_memory_within(alloc, limits, config, ntlm) {
        Ok(share) => Ok(share),
        Err(ServeFault::NoMemory { done: _ }) => Err(CommandFault::NoMemory),
        Err(_) => Err(CommandFault::ConfigRefused(None)),
    }
}

/// A new share of the texts of a configuration and of accounts.
fn ntlm_share_of(
    alloc: Global,
    config: &str,
    accounts: &str,
    seed: [u8; 16],
) -> Result<Share<Ntlm, NodeTree, HandleTable>, CommandFault> {
    let configuration = Configuration::read(alloc, config)?;
    let accounts = Accounts::read(alloc, accounts).map_err(CommandFault::of_accounts)?;
    new_ntlm_share(alloc, configuration, accounts, seed)
}

/// The same as [`replay_text`](crate::replay_text) on a share to which clients log in by NTLM. The accounts are the
/// text of a file of them; the challenges come from the seed, so each run of one text answers the same.
pub fn replay_ntlm_text<R: Read + Drop, W: Write, E: Write>(
    alloc: Global,
    config: &str,
    accounts: &str,
    seed: [u8; 16],
    input: R,
    output: &mut W,
    errors: &mut E,
) -> u8 {
    match ntlm_share_of(alloc, config, accounts, seed) {
        Ok(share) => replay_on_share(alloc, share, Detail::Brief, input, output, errors),
        Err(fault) => fault.report(alloc, Detail::Brief, errors),
    }
}
