//! The laws of bytes that are read.

ghost use Rattle.smb_content_laws.specs.Reading.{AReadGivesWhatIsThere, AFileKeepsItsBytes, WhatIsWrittenIsReadAgain};
ghost use Rattle.smb_content_laws.specs.Reading.{ASizeLeavesTheFront, AMadeFileIsEmpty};

/// What a READ gives is what the file has, byte for byte. A file keeps its bytes over any requests of which none writes
/// to it, overwrites it or sets its size. So any part of what a WRITE put is read again, through any open of the file,
/// and what it does not cover is read as before; what lies in the gap before a WRITE past the end, or is added by a
/// longer size, reads as zeros, and what another size leaves in front as before. A file that was made or overwritten
/// has no bytes. The contract is the statement, and the body does nothing.
pub fn laws_of_reading()
    ensures there { AReadGivesWhatIsThere }
    ensures keeps { AFileKeepsItsBytes }
    ensures again { WhatIsWrittenIsReadAgain }
    ensures sizes { ASizeLeavesTheFront }
    ensures made { AMadeFileIsEmpty }
{}
