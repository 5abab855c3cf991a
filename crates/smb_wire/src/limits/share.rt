//! How much there may be of everything in one share.

ghost use Rattle.std.specs.Prelude.{◌≤◌};
ghost use Rattle.smb_wire.specs.Greatest.{greatest_file_bytes};

/// How much there may be of everything in one share. It begins as the default, and each number is changed by a call of
/// its own. None is ever over its greatest value, so that sums of what a share holds fit 64 bits.
#[derive(Clone, Copy, Debug, PartialEq, Eq)]
pub struct Limits {
    /// The most connections.
    pub connections: usize,
    /// The most opens.
    pub opens: usize,
    /// The most locks of a file.
    pub locks: usize,
    /// The most entries, without the root.
    pub entries: usize,
    /// The most bytes of a file.
    pub file_bytes: u64,
    /// The greatest capacity that a configuration may name, in bytes.
    pub capacity: u64,
    pub ghost few_connections: { connections ≤ 4096 },
    pub ghost few_opens: { opens ≤ 1048576 },
    pub ghost few_locks: { locks ≤ 4096 },
    pub ghost few_entries: { entries ≤ 4294967295 },
    pub ghost few_bytes: { file_bytes ≤ greatest_file_bytes },
    pub ghost small: { capacity ≤ 70368744177664 },
}

impl Default for Limits {
    ghost use Rattle.std.specs.Prelude.{◌≡◌};
    ghost use Rattle.smb_wire.specs.Limits.{default_limits};

    fn default() -> Limits
        ensures { result ≡ default_limits }
    {
        Limits::profile()
    }
}

impl Limits {
    ghost use Rattle.std.specs.Prelude.{◌≡◌, ◌&&◌, true, false, nat_lt, nat_le};
    ghost use Rattle.smb_wire.specs.Limits.{default_limits};

    /// The limits of docs/PROFILE.md, which a share has where nothing else is said.
    pub const fn profile() -> Limits
        ensures { result ≡ default_limits }
    {
        Limits {
            connections: 64,
            opens: 1_024,
            locks: 256,
            entries: 4_096,
            file_bytes: 16_777_216,
            capacity: 67_108_864,
        }
    }

    /// Lets there be so many connections, from 1 to 4,096; false, and nothing changes, at another number.
    pub fn set_connections(&mut self, connections: usize) -> bool
        ensures lawful { result ≡ (nat_lt 0 connections && nat_le connections 4096) }
        ensures yes { result ≡ true → self.new.connections ≡ connections }
        ensures no { result ≡ false → self.new ≡ self.old }
        ensures others { (self.new.opens ≡ self.old.opens) × (self.new.locks ≡ self.old.locks) × (self.new.entries ≡ self.old.entries) × (self.new.file_bytes ≡ self.old.file_bytes) × (self.new.capacity ≡ self.old.capacity) }
    {
        if connections == 0 || connections > 4_096 {
            return false;
        }
        self.connections = connections;
        true
    }

    /// Lets there be so many opens, from 1 to 1,048,576; false, and nothing changes, at another number.
    pub fn set_opens(&mut self, opens: usize) -> bool
        ensures lawful { result ≡ (nat_lt 0 opens && nat_le opens 1048576) }
        ensures yes { result ≡ true → self.new.opens ≡ opens }
        ensures no { result ≡ false → self.new ≡ self.old }
        ensures others { (self.new.connections ≡ self.old.connections) × (self.new.locks ≡ self.old.locks) × (self.new.entries ≡ self.old.entries) × (self.new.file_bytes ≡ self.old.file_bytes) × (self.new.capacity ≡ self.old.capacity) }
    {
        if opens == 0 || opens > 1_048_576 {
            return false;
        }
        self.opens = opens;
        true
    }

    /// Lets a file have so many locks, from 1 to 4,096; false, and nothing changes, at another number.
    pub fn set_locks(&mut self, locks: usize) -> bool
        ensures lawful { result ≡ (nat_lt 0 locks && nat_le locks 4096) }
        ensures yes { result ≡ true → self.new.locks ≡ locks }
        ensures no { result ≡ false → self.new ≡ self.old }
        ensures others { (self.new.connections ≡ self.old.connections) × (self.new.opens ≡ self.old.opens) × (self.new.entries ≡ self.old.entries) × (self.new.file_bytes ≡ self.old.file_bytes) × (self.new.capacity ≡ self.old.capacity) }
    {
        if locks == 0 || locks > 4_096 {
            return false;
        }
        self.locks = locks;
        true
    }

    /// Lets there be so many entries besides the root, from 1 to 4,294,967,295; false, and nothing changes, at another number.
    pub fn set_entries(&mut self, entries: usize) -> bool
        ensures lawful { result ≡ (nat_lt 0 entries && nat_le entries 4294967295) }
        ensures yes { result ≡ true → self.new.entries ≡ entries }
        ensures no { result ≡ false → self.new ≡ self.old }
        ensures others { (self.new.connections ≡ self.old.connections) × (self.new.opens ≡ self.old.opens) × (self.new.locks ≡ self.old.locks) × (self.new.file_bytes ≡ self.old.file_bytes) × (self.new.capacity ≡ self.old.capacity) }
    {
        if entries == 0 || entries > 4_294_967_295 {
            return false;
        }
        self.entries = entries;
        true
    }

    /// Lets a file have so many bytes, from 1 to 8,796,093,022,208; false, and nothing changes, at another number.
    pub fn set_file_bytes(&mut self, file_bytes: u64) -> bool
        ensures lawful { result ≡ (nat_lt 0 file_bytes && nat_le file_bytes greatest_file_bytes) }
        ensures yes { result ≡ true → self.new.file_bytes ≡ file_bytes }
        ensures no { result ≡ false → self.new ≡ self.old }
        ensures others { (self.new.connections ≡ self.old.connections) × (self.new.opens ≡ self.old.opens) × (self.new.locks ≡ self.old.locks) × (self.new.entries ≡ self.old.entries) × (self.new.capacity ≡ self.old.capacity) }
    {
        if file_bytes == 0 || file_bytes > 8_796_093_022_208 {
            return false;
        }
        self.file_bytes = file_bytes;
        true
    }

    /// Lets a configuration name a capacity of so many bytes, from 1 to 70,368,744,177,664; false, and nothing changes, at another number.
    pub fn set_capacity(&mut self, capacity: u64) -> bool
        ensures lawful { result ≡ (nat_lt 0 capacity && nat_le capacity 70368744177664) }
        ensures yes { result ≡ true → self.new.capacity ≡ capacity }
        ensures no { result ≡ false → self.new ≡ self.old }
        ensures others { (self.new.connections ≡ self.old.connections) × (self.new.opens ≡ self.old.opens) × (self.new.locks ≡ self.old.locks) × (self.new.entries ≡ self.old.entries) × (self.new.file_bytes ≡ self.old.file_bytes) }
    {
        if capacity == 0 || capacity > 70_368_744_177_664 {
            return false;
        }
        self.capacity = capacity;
        true
    }
}
