use crate::node_links::NodeLinks;

/// What links all servers and controllers, each by its number.
#[derive(Drop)]
pub struct Links {
    pub servers: Vec<NodeLinks>,
    pub controllers: Vec<NodeLinks>,
}
