//! Questions, as they are received.
ghost use Rattle.std.specs.Prelude.{◌≡◌};

use crate::routes::DecideRoute;
use opc_board::text::KeptText;
use opc_http_requests::refusal::HttpRefusal;
use std::marker::Model;

/// A route, and the bytes of the body of the request.
#[derive(Drop)]
pub struct HttpQuestion {
    route: DecideRoute,
    body: Vec<u8>,
}

impl Model for HttpQuestion {
    ghost use Rattle.opc_http_questions.specs.Asked.{Asked};

    ghost Value = { Asked };

    ghost view = { λ question. record { route = question.route; body = question.body.items } };
}

impl HttpQuestion {
    pub fn new(route: DecideRoute, body: Vec<u8>) -> Self
        ensures { result ≡ record { route = route; body = body.items } }
    {
        HttpQuestion { route, body }
    }

    pub fn route(&self) -> DecideRoute
        ensures { result ≡ self.now.route }
    {
        self.route
    }

    pub fn body(&self) -> &[u8]
        ensures { result.now ≡ self.now.body }
    {
        self.body.as_slice()
    }
}

/// A request: the id that its response repeats, if it has one, and the question, or why it is none.
#[derive(Drop)]
pub struct DecideRequest {
    pub id: Option<KeptText>,
    pub question: Result<HttpQuestion, HttpRefusal>,
}
