// Text out: a page of bytes that holds at most 65,536, and numbers as text.
// Every call adds exactly the bytes that its contract names, or marks the page as over-full for good.
// The memory is got once, when the page is made; no later call can want any.
#![tactic(auto)]

pub mod page;
