//! Tables of records, as bytes: what is read of earlier versions, and the parts of what is written.
#![tactic(auto)]

mod answer_pieces;
mod answers;
mod call_pieces;
mod calls;
mod key_pieces;
mod keys;
mod linked;
mod node_bytes;
mod node_keys;
mod node_pieces;
mod nodes;
mod old_records;
mod parts;
mod pieces;
mod read_table;
mod reading;
mod recent;
mod records;
mod rows;
mod steps;
mod writer;

pub use node_bytes::NodeBytes;
pub use node_pieces::NodeWriter;
pub use nodes::{ReadNodes, nodes_of};
pub use parts::fresh_blobs;
pub use pieces::put_records;
pub use read_table::{ReadTable, texts_of};
pub use reading::table_in;
pub use recent::Recent;
pub use records::{ReadRecords, Used, is_whole, so_many_records};
pub use tr_parts::{CodecErr, Damage};
pub use writer::Writer;
