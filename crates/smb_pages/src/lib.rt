//! The bytes of one file, in pages of 4,096 bytes.
//!
//! [`Pages`] is a list of bytes: [`add_part`](Pages::add_part) reads a part of it, [`put_at`](Pages::put_at) replaces
//! one, behind zeros where it is past the end, and [`resize`](Pages::resize) cuts it or puts zeros behind it. That
//! the bytes are those of the pages, one page behind the other, is `specs/Pages.antt`.
//!
//! A page that was never written takes no memory and is read as zeros, and so does a page behind what was written of
//! it. So a file grows, and is cut, with no memory, and a write takes memory for the pages in which it lies, before
//! it changes any of them. No call moves the whole file.
#![tactic(auto)]

mod page;
mod pages;
mod table;

pub use pages::Pages;
