//! Bodies that were spelled by hand from the standard's tables; `docs/BODIES.md` has them field by field.

mod lists;
mod replies;
mod requests;
mod smb1;
mod unreadable;
