// The requests on a batch that directives make.
ghost use Rattle.std.specs.Prelude.{◌≡◌, ◌-◌};
ghost use Rattle.batch.specs.Stages.{said_by};
ghost use Rattle.session.specs.Draws.{after_answer, asked, draws_from, next_after};
ghost use Rattle.task.specs.Lines.{request_of};

use batch::stage::{Reply, Request};
use refusal::Cause;
use task::line::Directive;

// The request that a directive makes, if it makes just one.
pub fn requested(directive: &Directive) -> Option<Request>
    ensures { result ≡ asked (request_of directive.now) }
{
    match directive {
        Directive::Open => Some(Request::Open),
        Directive::Try(window) => Some(Request::Try(*window)),
        Directive::Run => Some(Request::Run),
        Directive::Close => Some(Request::Close),
        Directive::GiveUp => Some(Request::GiveUp),
        _ => None,
    }
}

// Where a directive `draws` stands.
#[derive(Clone, Copy)]
pub struct Draws {
    // How many draws it asks for.
    count: u64,
    // How many of them are not over yet.
    left: u64,
    // The request that comes next, or none where the directive is over.
    request: Option<Request>,
}

// What follows on the answer to a request of `draws`.
#[derive(Clone, Copy)]
pub enum Next {
    Ask(Request),
    // The draw is over.
    DrawDone,
    // The directive is over.
    Over,
}

impl Draws {
    pub fn new(count: u64) -> Draws
        ensures { result ≡ draws_from count count }
    {
        Draws::with_left(count, count)
    }

    fn with_left(count: u64, left: u64) -> Draws
        ensures { result ≡ draws_from count left }
    {
        let request = if left == 0 { None } else { Some(Request::Open) };
        Draws {
            count,
            left,
            request,
        }
    }

    // The request that comes next, or none where the directive is over.
    pub fn request(self) -> Option<Request>
        ensures { result ≡ self.request }
    {
        self.request
    }

    // How many draws the directive asks for.
    pub fn count(self) -> u64
        ensures { result ≡ self.count }
    {
        self.count
    }

    // How many of them are over.
    pub fn done(self) -> u64
        ensures { result ≡ self.count - self.left }
    {
        self.count.saturating_sub(self.left)
    }

    // Goes on after the answer to the request.
    pub fn answered<F: Cause + Drop>(self, reply: &Reply<F>) -> Draws
        ensures { result ≡ after_answer self (said_by F.refusal reply.now) }
    {
        let Some(request) = self.request else {
            return self;
        };
        match Next::after(request, reply) {
            Next::Ask(following) => Draws {
                request: Some(following),
                ..self
            },
            Next::DrawDone => Draws::with_left(self.count, self.left.saturating_sub(1)),
            Next::Over => Draws {
                request: None,
                ..self
            },
        }
    }
}

impl Next {
    fn after<F: Cause + Drop>(request: Request, reply: &Reply<F>) -> Next
        ensures { result ≡ next_after request (said_by F.refusal reply.now) }
    {
        match (request, reply) {
            (Request::Open, Reply::Opened) => Next::Ask(Request::Run),
            (Request::Run, Reply::Met) => Next::Ask(Request::Close),
            (Request::Run, Reply::Apart | Reply::Refused(_)) => Next::Ask(Request::GiveUp),
            (Request::Close, Reply::Closed) | (Request::GiveUp, Reply::GivenUp) => Next::DrawDone,
            _ => Next::Over,
        }
    }
}
