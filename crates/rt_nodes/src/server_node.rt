use rt_server::Server;

/// A server, which is up or down. A server that is down has neither entries nor targets.
#[derive(Drop)]
pub struct ServerNode {
    pub server: Server,
    pub up: bool,
}
