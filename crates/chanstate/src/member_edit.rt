// A change of one member.
use crate::detail::Detail;
use crate::member::{Mark, Member};
use bytetext::Text;

/// A change of what is known of a member. The nick stays.
#[derive(Drop)]
pub enum MemberEdit {
    // A mark is set or cleared.
    Marked(Mark, bool),
    // A list of names shows these marks.
    Listed(Member),
    // The user and host become these.
    Addressed(Text, Text),
    // The server tells this.
    Told(Detail),
}
