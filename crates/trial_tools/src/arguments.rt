// What is handed to the entries: vehicles, walk records and jobs, field by field, whatever they hold.
use crate::reading::Line;
use job::{Body, Curve, Element, Form, Job, Side, Start, Unit, Vehicle};
use plane::Vec2;
use walk::Walk;

impl Line<'_> {
    pub fn vehicle(&mut self) -> Option<Vehicle> {
        Some(Vehicle {
            form: self.form()?,
            count: self.number()?,
            units: [self.unit()?, self.unit()?, self.unit()?, self.unit()?],
            overhang: self.number()?,
            front_half_width: self.number()?,
            rear_half_width: self.number()?,
        })
    }

    // 0 is a short job's vehicle, 1 a long one's.
    fn form(&mut self) -> Option<Form> {
        match self.number::<u32>()? {
            0 => Some(Form::Short),
            1 => Some(Form::Long),
            _ => None,
        }
    }

    // Kept: the new form is no plainer: this and `start` are alike, but each is read by its own fields' names.
    fn unit(&mut self) -> Option<Unit> {
        Some(Unit {
            wheelbase: self.number()?,
            hitch: self.number()?,
            fold: self.number()?,
            body: self.body()?,
        })
    }

    fn body(&mut self) -> Option<Body> {
        Some(Body {
            front_overhang: self.number()?,
            rear_overhang: self.number()?,
            half_width: self.number()?,
        })
    }

    pub fn vector(&mut self) -> Option<Vec2> {
        Some(Vec2 {
            x: self.number()?,
            y: self.number()?,
        })
    }

    pub fn walk(&mut self) -> Option<Walk> {
        Some(Walk {
            vehicle: self.vehicle()?,
            station: self.number()?,
            d: [
                self.vector()?,
                self.vector()?,
                self.vector()?,
                self.vector()?,
            ],
        })
    }

    pub fn job(&mut self) -> Option<Job> {
        Some(Job {
            vehicle: self.vehicle()?,
            start: self.start()?,
            step: self.number()?,
            count: self.number()?,
            elements: self.elements()?,
        })
    }

    // Kept: like `unit`, for the reason given there.
    fn start(&mut self) -> Option<Start> {
        Some(Start {
            x: self.number()?,
            y: self.number()?,
            gx: self.number()?,
            gy: self.number()?,
        })
    }

    // As many elements as the next number says; those behind them are straights of length 0.
    fn elements(&mut self) -> Option<[Element; 64]> {
        let given: usize = self.number()?;
        let mut elements = job::empty_elements();
        for element in elements.get_mut(..given)? {
            *element = self.element()?;
        }
        Some(elements)
    }

    fn element(&mut self) -> Option<Element> {
        Some(Element {
            length: self.number()?,
            curve: self.curve()?,
        })
    }

    // Kept: the new form is no plainer: the tables write a kind as a number, and it is an enum from here on.
    // 1 turns left, 2 right; 0 is a straight, whose radius is not read by anyone.
    fn curve(&mut self) -> Option<Curve> {
        let kind: u32 = self.number()?;
        let radius = self.number()?;
        match kind {
            0 => Some(Curve::Straight),
            1 => Some(Curve::Arc(Side::Left, radius)),
            2 => Some(Curve::Arc(Side::Right, radius)),
            _ => None,
        }
    }
}
