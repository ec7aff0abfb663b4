//! What the guard gives out: messages for the service, and answers for clients.

ghost use Rattle.std.specs.Prelude.{◌≡◌, IfSome, None, OnOk};
ghost use Rattle.av_daemon.specs.Telling.{AreTold, connection_for};
ghost use Rattle.av_peers.specs.Clients.{IsSilent, IsSilentBeside, IsTold, client_at};
ghost use Rattle.av_peers.specs.declared.told.LargeTold.TheVariants.{Answered};
ghost use Rattle.av_daemon.specs.Passing.{KeepsFilter};

use super::recording::{look, name_in};
use super::{Daemon, FIRST, Stop, connection_of, millis};
use crate::names::Names;
use crate::recorder::judged_of;
use av_frame::encode::encode_into;
use av_frame::{Body, Message};
use av_guard::{Guard, GuardOut, Told};
use av_log::{AskNote, AskSocket};
use av_peers::asked::Question;
use av_peers::client::{Client, Lost};
use av_peers::told::LargeTold;
use std::collections::BTreeMap;
use std::fs::Files;
use std::net::Net;
use std::time::{Clock, Duration};

impl<'a, R: Files + Net + Clock> Daemon<'a, R> {
    // Hands on what an event gave. A question that it asks is about what began to come at the moment `first`.
    pub(super) fn settle(
        &mut self,
        guard: &mut Guard,
        given: GuardOut,
        first: u64,
    ) -> Result<(), Stop>
        ensures guard { OnOk result (KeepsFilter guard.old guard.new) }
        ensures told { OnOk result (AreTold given.told.items self.old.clients.entries self.new.clients.entries) }
    {
        self.put_messages(&given.messages, first)?;
        self.tell_each(guard, &given.told)
    }

    // The messages for the services.
    fn put_messages(&mut self, messages: &[Message], first: u64) -> Result<(), Stop>
        ensures { OnOk result (self.new.clients ≡ self.old.clients) }
    {
        'messages: for message in messages {
            self.put_message(message, first)?;
        }
        Ok(())
    }

    // The answers for the clients.
    fn tell_each(&mut self, guard: &mut Guard, told: &[Told]) -> Result<(), Stop>
        ensures guard { OnOk result (KeepsFilter guard.old guard.new) }
        ensures told { OnOk result (AreTold told.now self.old.clients.entries self.new.clients.entries) }
    {
        let now = self.now()?;
        'told: for one in told {
            self.tell(guard, Reply::from(*one), now)?;
        }
        Ok(())
    }

    // The same of what was given when a service was lost. A question that is asked again has no more time than before: when the first
    // byte of its ask came is told by its stream.
    pub(super) fn settle_moved(
        &mut self,
        guard: &mut Guard,
        given: GuardOut,
        firsts: &BTreeMap<u64, u64>,
        now: Duration,
    ) -> Result<(), Stop>
        ensures guard { OnOk result (KeepsFilter guard.old guard.new) }
        ensures told { OnOk result (AreTold given.told.items self.old.clients.entries self.new.clients.entries) }
    {
        'messages: for message in given.messages.iter() {
            let first = match message.body() {
                Body::Scan { stream, .. } => firsts.get(&stream.get()).copied(),
                _ => None,
            };
            self.put_message(message, first.unwrap_or(millis(now)))?;
        }
        self.tell_each(guard, &given.told)
    }

    // A message for the service of a port, where it is still there.
    fn put_message(&mut self, message: &Message, first: u64) -> Result<(), Stop>
        ensures { OnOk result (self.new.clients ≡ self.old.clients) }
    {
        let connection = connection_of(message.port());
        match message.body() {
            Body::Scan {
                id,
                stream,
                length,
                ..
            } => {
                self.turns.asked(id.seq, first, *length)?;
                let stream = stream.get();
                let now = self.now()?;
                if let Some(service) = self.services.get_mut(&connection) {
                    let question = Question { stream, first };
                    service.asked.asked(id.seq, question, now)?;
                }
            }
            Body::Abort { id } => {
                self.turns.question_over(id.seq);
                if let Some(service) = self.services.get_mut(&connection) {
                    service.asked.over(id.seq);
                }
            }
            _ => {}
        }
        let Some(service) = self.services.get_mut(&connection) else {
            return Ok(());
        };
        encode_into(message, &mut service.line.waiting)?;
        self.wants_to_send(connection)
    }

    // An answer for a client, where it is still there.
    pub(super) fn tell(
        &mut self,
        guard: &mut Guard,
        reply: Reply,
        now: Duration,
    ) -> Result<(), Stop>
        ensures guard { OnOk result (KeepsFilter guard.old guard.new) }
        ensures told { OnOk result (IsTold (connection_for reply.client) reply.tag reply.told self.old.clients.entries self.new.clients.entries) }
    {
        let who = reply.client;
        let connection = who.saturating_add(FIRST);
        let Some((done, bytes)) = self.put_told(connection, &reply) else {
            return Ok(());
        };
        if done.is_err() {
            return self.lose(guard, who);
        }
        let note = self.take_note(connection, reply.tag);
        let way = self.way_of(connection);
        self.counts.told(judged_of(reply.told));
        self.record_told(reply, way, note);
        self.turns.answered(who, bytes as u64, millis(now))?;
        self.wants_to_send(connection)
    }

    // What a client asked about under a tag, where that was kept.
    fn take_note(&mut self, connection: u64, tag: u64) -> Option<AskNote>
        ensures { IsSilent self.old.clients.entries self.new.clients.entries }
    {
        self.clients.get_mut(&connection)?.notes.take(tag)
    }

    // At which socket a client came.
    fn way_of(&self, connection: u64) -> AskSocket {
        match self.clients.get(&connection) {
            Some(client) if client.is_of_clamd() => AskSocket::Clamd,
            _ => AskSocket::Opens,
        }
    }

    // Puts an answer to what a client is sent, and says how many bytes that took.
    fn put_told(&mut self, connection: u64, reply: &Reply) -> Option<(Result<(), Lost>, usize)>
        ensures told { IfSome result (λ done. OnOk done.0 (IsTold connection reply.now.tag reply.now.told self.old.clients.entries self.new.clients.entries)) }
        ensures others { IsSilentBeside connection self.old.clients.entries self.new.clients.entries }
        ensures nobody { result ≡ None → (client_at connection self.old.clients.entries ≡ None) × (self.new.clients ≡ self.old.clients) }
    {
        let client = self.clients.get_mut(&connection)?;
        let before = client.line.waiting();
        if client.is_of_clamd() {
            look(&mut self.names, self.rt, self.alloc, reply.told);
        }
        let name = name_for(client, &self.names, reply.told);
        let done = client.tell(reply.tag, reply.told, name);
        let bytes = client.line.waiting().saturating_sub(before);
        Some((done, bytes))
    }
}

// The name that a client gets with an answer: one of clamd alone gets one.
fn name_for<'n>(client: &Client, names: &'n Names<'_>, told: LargeTold) -> Option<&'n [u8]> {
    if client.is_of_clamd() {
        name_in(names, told)
    } else {
        None
    }
}

/// An answer, with the guard's number of its client and the client's tag.
#[derive(Clone, Copy)]
pub(super) struct Reply {
    pub client: u64,
    pub tag: u64,
    pub told: LargeTold,
}

impl From<Told> for Reply {
    fn from(told: Told) -> Reply
        ensures { result ≡ record { client = told.client; tag = told.tag; told = Answered told.answer } }
    {
        Reply {
            client: told.client,
            tag: told.tag,
            told: LargeTold::Answered(told.answer),
        }
    }
}
