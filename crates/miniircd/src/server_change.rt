// What a line of a client changes.
use crate::client_identity::ClientIdentity as Client;
use crate::member::ServerChannel;
use bytetext::Seq;

/// What a line of a client changes.
#[derive(Drop)]
pub enum ServerChange {
    // Nothing.
    Same,
    // What the client has said of itself.
    Person(Client),
    // The channels.
    Channels(Seq<ServerChannel>),
}

/// What a line of a client does to the server.
#[derive(Drop)]
pub enum Effect {
    // It changes this.
    Changed(ServerChange),
    // The client has left the server, and these are the remaining channels.
    Left(Seq<ServerChannel>),
}
