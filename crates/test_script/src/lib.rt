//! Tests of whole scripts, worked and replayed, which wrong definitions would fail; and of what no contract says of hostile input: runs of great
//! sizes with ample memory, and devices that fail at each call.
#![tactic(auto)]

#[cfg(test)]
mod devices;
#[cfg(test)]
mod edges;
#[cfg(test)]
mod explained;
#[cfg(test)]
mod long_words;
#[cfg(test)]
mod many_tags;
#[cfg(test)]
mod replayed;
#[cfg(test)]
mod runs;
#[cfg(test)]
mod scripts;
#[cfg(test)]
mod sizes;
#[cfg(test)]
mod with_rows;
#[cfg(test)]
mod worked;
