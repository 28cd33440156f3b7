//! How far a server's life is.

ghost use Rattle.std.specs.Prelude.{◌≡◌};
ghost use Rattle.x_frames.specs.Lives.{admitted, end_of, is_shut_down, life_behind, life_noted};

use crate::answers::ErrorCode;
use crate::method::Method;

/// How far a server's life is.
#[derive(Clone, Copy, Debug, PartialEq, Eq)]
pub enum Life {
    /// No client has initialized it.
    Fresh,
    /// It serves a client.
    Running,
    /// The client is about to end it.
    ShutDown,
    /// The client has ended it, after a request to shut down or without one.
    Ended { asked: bool },
}

impl Life {
    /// Whether the client has ended the server, and then, whether it had asked it to shut down.
    pub fn end(self) -> Option<bool>
        ensures { result ≡ end_of self }
    {
        match self {
            Life::Ended { asked } => Some(asked),
            _ => None,
        }
    }

    /// The request that is carried out then; a request that is not is refused with an error.
    pub fn admit(self, method: Option<Method>) -> Result<Method, ErrorCode>
        ensures { result ≡ admitted self method }
    {
        match self {
            Life::Fresh => match method {
                Some(Method::Initialize) => Ok(Method::Initialize),
                _ => Err(ErrorCode::NotInitialized),
            },
            Life::Running => match method {
                None => Err(ErrorCode::MethodNotFound),
                Some(Method::Initialize) => Err(ErrorCode::InvalidRequest),
                Some(method) => Ok(method),
            },
            Life::ShutDown => Err(ErrorCode::InvalidRequest),
            Life::Ended { .. } => Err(ErrorCode::InvalidRequest),
        }
    }

    /// The life behind a request that got its result.
    pub fn behind(self, method: Method) -> Life
        ensures { result ≡ life_behind self method }
    {
        match method {
            Method::Initialize => Life::Running,
            Method::Shutdown => Life::ShutDown,
            Method::Ask(_) => self,
        }
    }

    /// The life behind a notification.
    pub fn noted(self, method: &str) -> Life
        ensures { result ≡ life_noted self method.now }
    {
        if method == "exit" {
            Life::Ended {
                asked: self.is_shut_down(),
            }
        } else {
            self
        }
    }

    /// Whether the client has asked the server to shut down.
    fn is_shut_down(self) -> bool
        ensures { result ≡ is_shut_down self }
    {
        match self {
            Life::ShutDown => true,
            _ => false,
        }
    }
}
