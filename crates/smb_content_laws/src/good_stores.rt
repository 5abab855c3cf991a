//! The laws of good stores.

ghost use Rattle.smb_content_laws.specs.GoodStores.{AStoreBeginsGood, AGoodStoreStaysGood};

/// A store of a good tree is good before it has an open, and stays good whatever requests succeed: its tree, its opens
/// and its locks are as `specs/Good.antt` of smb_opens says. So what is a law of a good store here holds between any
/// two requests. The numbers of its opens stay from 1 on and below 2 ^ 64, and those of its entries below 2 ^ 64, as a
/// CREATE is refused once the numbers are spent. The contract is the statement, and the body does nothing.
pub fn laws_of_good_stores()
    ensures begins { AStoreBeginsGood }
    ensures stays { AGoodStoreStaysGood }
{}
