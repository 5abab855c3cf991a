//! The scan of a directory through an open ([MS-FSA] 2.1.5.6.3).

ghost use Rattle.std.specs.Prelude.{◌≡◌};
ghost use Rattle.smb_opens.specs.Scans.{scan_set};

use super::store::Store;
use smb_access::{OpenNo, Opens, Scan};
use smb_tree::Tree;

impl<T: Tree + Drop, O: Opens + Drop> Store<T, O> {
    /// Sets the scan of the open of a number; where none has it, nothing changes. It takes no memory.
    pub fn set_scan(&mut self, number: OpenNo, scan: Scan)
        ensures { self.new ≡ scan_set self.old number scan }
    {
        self.opens.set_scan(number, scan);
    }
}
