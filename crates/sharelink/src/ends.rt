// The end that a bot has, in a file of its own, since an enum has no value that contracts see.
use crate::hub_link::HubLink;
use crate::leaf_link::LeafLink;
use disks::Disk;

#[derive(Drop)]
pub(crate) enum Ends<D: Disk> {
    Hub(HubLink<D>),
    Leaf(LeafLink<D>),
}
