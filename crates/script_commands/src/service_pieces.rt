//! Readers of the pieces of lines for RS and driver tables.

#![tactic(auto, unfolding(crate::specs::Reads::ReadsOr))]

ghost use Rattle.std.specs.Prelude.{◌≡◌, ◌≢◌, Ok, Err, IfOk, IfErr, IfSome, IfNone};
ghost use Rattle.driver_tables.specs.declared.file_table.FileClass.{FileClass};
ghost use Rattle.script_commands.specs.Reads.{Reads};
ghost use Rattle.script_commands.specs.Service.{class_word, request_word, server_word};
ghost use Rattle.script_commands.specs.ServicePieces.{a_class, a_device, a_request, a_server, a_text, a_unit};
ghost use Rattle.script_commands.specs.declared.service.Request.{Request};
ghost use Rattle.script_commands.specs.declared.service.Server.{Server};

use crate::pieces::Rest;
use crate::service::{Device, Request, Server};
use driver_tables::FileClass;
use ds_line::{Expected, PartFault, stop_at, word_at};
use ds_names::read_decimal;
use line_io::newline_place;

impl<'a> Rest<'a> {
    /// Reads the rest of the line with its newline, and returns what is before the newline.
    pub fn text(&mut self) -> Result<&'a [u8], PartFault>
        ensures found { IfOk result (λ text. Reads a_text self.old.bytes.now (Ok text.now) self.new.bytes.now) }
        ensures stop { IfErr result (λ stop. Reads a_text self.old.bytes.now (Err stop) self.new.bytes.now) }
    {
        self.byte(b' ', Expected::Space)?;
        self.expected = Expected::End;
        let Some(place) = newline_place(self.bytes) else {
            return Err(stop_at(&[]));
        };
        let text = &self.bytes[..place];
        self.bytes = &self.bytes[place + 1..];
        Ok(text)
    }

    pub fn request(&mut self) -> Result<Request, PartFault>
        ensures { Reads a_request self.old.bytes.now result self.new.bytes.now }
    {
        self.byte(b' ', Expected::Space)?;
        self.expected = Expected::Request;
        let (word, rest) = word_at(self.bytes);
        let Some(request) = request_of(word) else {
            return Err(stop_at(self.bytes));
        };
        self.bytes = rest;
        Ok(request)
    }

    /// Reads `file` or `net`.
    pub fn server(&mut self) -> Result<Server, PartFault>
        ensures { Reads a_server self.old.bytes.now result self.new.bytes.now }
    {
        self.byte(b' ', Expected::Space)?;
        self.expected = Expected::Server;
        let (word, rest) = word_at(self.bytes);
        let Some(server) = server_of(word) else {
            return Err(stop_at(self.bytes));
        };
        self.bytes = rest;
        Ok(server)
    }

    // Reads `block` or `character`.
    fn class(&mut self) -> Result<FileClass, PartFault>
        ensures { Reads a_class self.old.bytes.now result self.new.bytes.now }
    {
        self.byte(b' ', Expected::Space)?;
        self.expected = Expected::Class;
        let (word, rest) = word_at(self.bytes);
        let Some(class) = class_of(word) else {
            return Err(stop_at(self.bytes));
        };
        self.bytes = rest;
        Ok(class)
    }

    /// Reads the number of a major device or a port, 0 to 255.
    pub fn unit(&mut self, expected: Expected) -> Result<u8, PartFault>
        ensures { Reads a_unit self.old.bytes.now result self.new.bytes.now }
    {
        self.byte(b' ', Expected::Space)?;
        self.expected = expected;
        let Some((number, rest)) = read_decimal(self.bytes, 255) else {
            return Err(stop_at(self.bytes));
        };
        self.bytes = rest;
        Ok(number as u8)
    }

    /// Reads a device: a major device with its class, or a port.
    pub fn device(&mut self) -> Result<Device, PartFault>
        ensures { Reads a_device self.old.bytes.now result self.new.bytes.now }
    {
        match self.server()? {
            Server::File => {
                let major = self.unit(Expected::Major)?;
                let class = self.class()?;
                Ok(Device::File { major, class })
            }
            Server::Net => {
                let port = self.unit(Expected::Port)?;
                Ok(Device::Net { port })
            }
        }
    }
}

fn request_of(word: &[u8]) -> Option<Request>
    ensures found { IfSome result (λ request. word.now ≡ request_word request) }
    ensures none { IfNone result ((request : Request) → word.now ≢ request_word request) }
{
    if word == b"up".as_slice() {
        Some(Request::Up)
    } else if word == b"down".as_slice() {
        Some(Request::Down)
    } else if word == b"refresh".as_slice() {
        Some(Request::Refresh)
    } else if word == b"restart".as_slice() {
        Some(Request::Restart)
    } else {
        None
    }
}

fn server_of(word: &[u8]) -> Option<Server>
    ensures found { IfSome result (λ server. word.now ≡ server_word server) }
    ensures none { IfNone result ((server : Server) → word.now ≢ server_word server) }
{
    if word == b"file".as_slice() {
        Some(Server::File)
    } else if word == b"net".as_slice() {
        Some(Server::Net)
    } else {
        None
    }
}

fn class_of(word: &[u8]) -> Option<FileClass>
    ensures found { IfSome result (λ class. word.now ≡ class_word class) }
    ensures none { IfNone result ((class : FileClass) → word.now ≢ class_word class) }
{
    if word == b"block".as_slice() {
        Some(FileClass::Block)
    } else if word == b"character".as_slice() {
        Some(FileClass::Character)
    } else {
        None
    }
}
