//! A response.

use crate::block::Block;

/// A response: the numbers of its GUID, the characters of its name, if it has one, its blocks, and whether it tells an alternative.
#[derive(Drop)]
pub struct Response<'a> {
    pub guid: Vec<u16>,
    pub name: Option<Vec<u16>>,
    pub blocks: Vec<Block<'a>>,
    pub is_alternative: bool,
}
